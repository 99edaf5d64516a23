//! The header fields of a message, by their names.

ghost use Rattle.std.specs.Prelude.{◌≡◌, ◌≤◌, ℕ, List, All, length, map, IfOk, OnOk};
ghost use Rattle.httparse.specs.Spans.{IsHeaderWithin, header_bytes};
ghost use Rattle.http_header.specs.FieldName.{IsFieldName};
ghost use Rattle.http_header.specs.FieldValue.{IsFieldValue, plain_value};
ghost use Rattle.http_header.specs.HeaderMap.{RefusesAppend, append};
ghost use Rattle.http_header.specs.Token.{lowercase};
ghost use Rattle.st_http.specs.Fields.{values_of};
ghost use Rattle.st_http.specs.Head.{head_limit, field_limit};
ghost use Rattle.st_http.specs.Kept.{IsPair, under};

use http_header::{
    HeaderMap, HeaderMapError, HeaderName, HeaderNameError, HeaderValue, HeaderValueError,
};
use httparse::spans::HeaderSpan;
use std::alloc::{AllocError, Global};

/// Appends a field to the others.
fn keep(global: Global, fields: &mut HeaderMap, name: &[u8], value: &[u8]) -> Result<(), AllocError>
    requires name { IsFieldName name.now }
    requires value { IsFieldValue value.now }
    requires room { ¬ (RefusesAppend fields.old (lowercase name.now)) }
    ensures { OnOk result (fields.new ≡ append fields.old (lowercase name.now) (plain_value value.now)) }
{
    let name = match HeaderName::from_bytes(global, name) {
        Ok(name) => name,
        Err(HeaderNameError::OutOfMemory) => return Err(AllocError),
        Err(HeaderNameError::Invalid) => unreachable!(),
    };
    let value = match HeaderValue::from_bytes(global, value) {
        Ok(value) => value,
        Err(HeaderValueError::OutOfMemory) => return Err(AllocError),
        Err(HeaderValueError::Invalid) => unreachable!(),
    };
    match fields.append(name, value) {
        Ok(_) => Ok(()),
        Err(HeaderMapError::OutOfMemory) => Err(AllocError),
        Err(HeaderMapError::MaxSizeReached) => unreachable!(),
    }
}

/// The header fields of a head, by their names, in their order. `spans` gives the place in `head` of each name and value.
/// Fails if memory is refused.
pub fn fields_of(global: Global, head: &[u8], spans: &[HeaderSpan]) -> Result<HeaderMap, AllocError>
    requires within { All (IsHeaderWithin (length head.now)) spans.now }
    requires lawful { All IsPair (map (header_bytes head.now) spans.now) }
    requires short { length head.now ≤ head_limit }
    requires few { length spans.now ≤ field_limit }
    ensures { IfOk result (λ fields. (name : List ℕ) → under fields name ≡ values_of name (map (header_bytes head.now) spans.now)) }
{
    let mut fields = HeaderMap::new(global);
    for span in spans {
        keep(global, &mut fields, span.name.of(head), span.value.of(head))?;
    }
    Ok(fields)
}
