//! The three tables of books and their view: whether a store lists them, and how they are made.

ghost use Rattle.std.specs.Prelude.{◌≡◌, ◌<◌, [], false, true, codes, List, ℕ, IsTrue, IfOk, IfSome, OnOk, OnErr};
ghost use Rattle.sqlite_value.specs.declared.value.Value.TheVariants.{Text};
ghost use Rattle.sqlite_value.specs.Order.{column};
ghost use Rattle.sqlite_trees.specs.Objects.{catalog_tree};
ghost use Rattle.sqlite_trees.specs.Sound.{is_sound_list};
ghost use Rattle.sqlite_trees.specs.View.{IsClean, IsQuiet, KeepsCommitted};
ghost use Rattle.sqlite_trees.specs.declared.store.Shape.TheVariants as shapes;
ghost use Rattle.st_hop_books.specs.Stamp.{stamp_tree, stamp_row, IsNamedRow, IsStampText, IsStampRow};
ghost use Rattle.st_hop_books.specs.Fulfillments.{proof_tree};
ghost use Rattle.st_hop_books.specs.Trail.{no_trail};
ghost use Rattle.st_hop_books.specs.Table.{payment_tree, AreBooks, AreObjects, IsTableRow, ListsTables, IsOf};
ghost use Rattle.st_hop_books.specs.Standing.{IsReady, RecoversTo};
ghost use Rattle.st_hop_books.specs.Made.{table_row, IsUnlaid, IsUnlaidIfOpen, Lays, ListsNo, ListsTree};

use crate::error::BooksError;
use crate::lines::{count_in, text_in};
use crate::stamp::is_stamp;
use crate::table::conclude;
use sqlite_trees::schema::Object;
use sqlite_trees::store::{Alter, Shape, Store};
use sqlite_value::row::Row;
use std::alloc::Global;

/// The table of accounts, as an operator sees it.
const ACCOUNT: &str =
    "CREATE TABLE account (id INTEGER PRIMARY KEY, name TEXT NOT NULL, claims INTEGER NOT NULL, dues INTEGER NOT NULL) STRICT";

/// The table of payments outside Interledger.
const PAYMENT: &str =
    "CREATE TABLE payment (id INTEGER PRIMARY KEY, name TEXT NOT NULL, side TEXT NOT NULL, amount INTEGER NOT NULL, moment INTEGER NOT NULL) STRICT";

/// The table of fulfillments.
const FULFILLMENT: &str =
    "CREATE TABLE fulfillment (id INTEGER PRIMARY KEY, name TEXT NOT NULL, condition BLOB NOT NULL, fulfillment BLOB NOT NULL, amount INTEGER NOT NULL, moment INTEGER NOT NULL) STRICT";

/// Whether a column has this text.
fn has_text(row: &Row, at: usize, text: &str) -> bool
    ensures { IsTrue result → column row.now at ≡ Text text.now }
{
    match text_in(row, at) {
        Some(found) => found == text.as_bytes(),
        None => false,
    }
}

/// Whether a row of the list of objects is that of this table.
fn is_table_row(row: &Row, number: u64, name: &str, text: &str) -> bool
    ensures { IsTrue result → IsTableRow number name.now text.now row.now }
{
    count_in(row, 0) == Some(number)
        && has_text(row, 1, "table")
        && has_text(row, 2, name)
        && has_text(row, 3, name)
        && has_text(row, 4, text)
}

/// Whether a row of the list of objects has the number and the names of the view.
fn is_named(row: &Row) -> bool
    ensures { IsTrue result → IsNamedRow row.now }
{
    count_in(row, 0) == Some(3)
        && has_text(row, 1, "view")
        && has_text(row, 2, "books")
        && has_text(row, 3, "books")
}

/// Whether a row of the list of objects is that of the view, and says this address, if one is asked for.
fn is_stamp_row(alloc: Global, row: &Row, own: Option<&str>) -> Result<bool, BooksError>
    ensures { IfOk result (λ b. IsTrue b → (stamp : IsStampRow row.now) × IfSome own.entry (λ a. stamp.address ≡ a.now)) }
{
    let Some(text) = text_in(row, 4) else {
        return Ok(false);
    };
    if !is_named(row) {
        return Ok(false);
    }
    is_stamp(alloc, text, own)
}

/// Whether the list of objects is that of books: the three tables, and the view, which says this address, if one is asked for.
fn is_listed(alloc: Global, objects: &[Row], own: Option<&str>) -> Result<bool, BooksError>
    ensures { IfOk result (λ b. IsTrue b → AreObjects objects.now (λ row. (stamp : IsStampRow row) × IfSome own.entry (λ a. stamp.address ≡ a.now))) }
{
    match objects {
        [account, payment, stamp, proof] => {
            if !is_table_row(account, 1, "account", ACCOUNT) {
                return Ok(false);
            }
            if !is_table_row(payment, 2, "payment", PAYMENT) {
                return Ok(false);
            }
            if !is_table_row(proof, 4, "fulfillment", FULFILLMENT) {
                return Ok(false);
            }
            is_stamp_row(alloc, stamp, own)
        }
        _ => Ok(false),
    }
}

fn is_table(shape: Shape) -> bool
    ensures { IsTrue result → shape ≡ shapes.Table }
{
    match shape {
        Shape::Table => true,
        _ => false,
    }
}

fn is_pageless(shape: Shape) -> bool
    ensures { IsTrue result → shape ≡ shapes.Pageless }
{
    match shape {
        Shape::Pageless => true,
        _ => false,
    }
}

/// Whether nothing has this number.
pub(crate) fn is_absent(shape: Shape) -> bool
    ensures { IsTrue result → shape ≡ shapes.Absent }
{
    match shape {
        Shape::Absent => true,
        _ => false,
    }
}

/// Whether a store lists the three tables of books and their view, and nothing else. The view says this address, if one is asked
/// for.
pub(crate) fn lists_books<S: Alter>(
    alloc: Global,
    store: &S,
    own: Option<&str>,
) -> Result<bool, BooksError>
    ensures table { IfOk result (λ b. IsTrue b → (S.Store.view store.now).shape 0 ≡ shapes.Table) }
    ensures audit { IfOk result (λ b. IsTrue b → (S.Store.view store.now).shape payment_tree ≡ shapes.Table) }
    ensures filed { IfOk result (λ b. IsTrue b → (S.Store.view store.now).shape proof_tree ≡ shapes.Table) }
    ensures listed { IfOk result (λ b. IsTrue b → IsClean (S.Store.view store.now) → (S.Store.view store.now).is_broken ≡ false
        → is_sound_list ((S.Store.view store.now).trees catalog_tree) ≡ true → ListsTables ((S.Store.view store.now).trees catalog_tree)) }
    ensures own { IfOk result (λ b. IsTrue b → IsClean (S.Store.view store.now) → (S.Store.view store.now).is_broken ≡ false
        → is_sound_list ((S.Store.view store.now).trees catalog_tree) ≡ true
        → IfSome own.entry (λ a. IsOf a.now ((S.Store.view store.now).trees catalog_tree))) }
{
    let objects = store.objects(alloc)?;
    if !is_listed(alloc, &objects, own)? {
        return Ok(false);
    }
    let account_reals = store.reals(0);
    if account_reals != 0 {
        return Ok(false);
    }
    let payment_reals = store.reals(1);
    if payment_reals != 0 {
        return Ok(false);
    }
    let stamp_reals = store.reals(2);
    if stamp_reals != 0 {
        return Ok(false);
    }
    let proof_reals = store.reals(3);
    if proof_reals != 0 {
        return Ok(false);
    }
    if !is_table(store.shape(0)) {
        return Ok(false);
    }
    if !is_table(store.shape(3)) {
        return Ok(false);
    }
    if !is_pageless(store.shape(2)) {
        return Ok(false);
    }
    Ok(is_table(store.shape(1)))
}

/// Whether a store lists nothing and counts no start.
pub(crate) fn is_unlaid<S: Alter>(alloc: Global, store: &S) -> Result<bool, BooksError>
    ensures { IfOk result (λ b. IsTrue b → IsUnlaidIfOpen (S.Store.view store.now)) }
{
    let objects = store.objects(alloc)?;
    let starts = store.version();
    let accounts = is_absent(store.shape(0));
    let payments = is_absent(store.shape(1));
    let stamp = is_absent(store.shape(2));
    let proofs = is_absent(store.shape(3));
    Ok(objects.is_empty() && starts == 0 && accounts && payments && stamp && proofs)
}

/// Makes an empty table, and lists it with its text.
fn create_table<S: Alter>(
    store: &mut S,
    tree: u32,
    name: &str,
    text: &str,
) -> Result<(), BooksError>
    requires low { tree < 65536 }
    requires numbered { IsClean (S.Store.view store.old) → IsTrue (S.Store.view store.old).is_numbered }
    requires unused { IsClean (S.Store.view store.old) → (S.Store.view store.old).shape tree ≡ shapes.Absent }
    requires unnamed { IsClean (S.Store.view store.old) → ListsNo name.now (S.Store.view store.old) }
    ensures made { ListsTree S.Store store.old store.new result tree shapes.Table (table_row tree name.now text.now) }
    ensures quiet { IsQuiet S.Store.view S.Store.faults S.Store.recovers S.Store.is_shielded store.old store.new }
{
    let object = Object {
        shape: Shape::Table,
        kind: "table",
        name,
        table: name,
        reals: 0,
        sql: Some(text),
    };
    store.create(tree, &object)?;
    Ok(())
}

/// Lists the view with this text.
fn create_stamp<S: Alter>(store: &mut S, text: &str) -> Result<(), BooksError>
    requires numbered { IsClean (S.Store.view store.old) → IsTrue (S.Store.view store.old).is_numbered }
    requires unused { IsClean (S.Store.view store.old) → (S.Store.view store.old).shape stamp_tree ≡ shapes.Absent }
    requires unnamed { IsClean (S.Store.view store.old) → ListsNo (codes "books") (S.Store.view store.old) }
    ensures made { ListsTree S.Store store.old store.new result stamp_tree shapes.Pageless (stamp_row text.now) }
    ensures quiet { IsQuiet S.Store.view S.Store.faults S.Store.recovers S.Store.is_shielded store.old store.new }
{
    let object = Object {
        shape: Shape::Pageless,
        kind: "view",
        name: "books",
        table: "books",
        reals: 0,
        sql: Some(text),
    };
    store.create(2, &object)?;
    Ok(())
}

/// Makes the three tables and the view.
fn create_tables<S: Alter>(store: &mut S, text: &str) -> Result<(), BooksError>
    requires unlaid { IsClean (S.Store.view store.old) → IsUnlaid (S.Store.view store.old) }
    requires stamps { IsStampText text.now }
    ensures laid { OnOk result (IsClean (S.Store.view store.new) → Lays (S.Store.view store.old) (S.Store.view store.new)) }
    ensures quiet { IsQuiet S.Store.view S.Store.faults S.Store.recovers S.Store.is_shielded store.old store.new }
{
    create_table(store, 0, "account", ACCOUNT)?;
    create_table(store, 1, "payment", PAYMENT)?;
    create_stamp(store, text)?;
    create_table(store, 3, "fulfillment", FULFILLMENT)
}

/// Makes the three tables and the view in a store that lists nothing, in one commit. A crash at any moment of it leaves what could be left
/// before, or books without accounts.
pub(crate) fn make<S: Alter>(store: &mut S, text: &str) -> Result<(), BooksError>
    requires unlaid { IsClean (S.Store.view store.old) → IsUnlaid (S.Store.view store.old) }
    requires stamps { IsStampText text.now }
    ensures ready { OnOk result (IsClean (S.Store.view store.new) → IsReady (S.Store.view store.new)) }
    ensures made { OnOk result (IsClean (S.Store.view store.new) → AreBooks (S.Store.view store.new).trees 0 [] [] no_trail) }
    ensures clean { IsClean (S.Store.view store.new) → IsClean (S.Store.view store.old) }
    ensures any_moment { RecoversTo S.Store store.old store.new 0 [] [] no_trail }
{
    let entered = create_tables(store, text);
    conclude(store, entered)
}
