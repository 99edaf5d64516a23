//! The kinds of options that the commands have.

ghost use Rattle.std.specs.Prelude.{◌≡◌, ◌<◌, ◌^◌, false, length};
ghost use Rattle.clap.specs.Words.{Rule, rule_of};
ghost use Rattle.ilpstream_words.specs.Program as spec;
ghost use Rattle.ilpstream_words.specs.Program.{Adds, flag_rule, last_rule, number_place_rule, number_rule, option_rule, place_rule, required_rule, with_rule};

use crate::draft::Draft;
use clap::{Arg, ArgAction, value_parser};
use std::alloc::Global;

/// An option `--NAME` with one value, which help shows as `value`.
pub(crate) fn option<'a>(alloc: Global, name: &'a str, value: &'a str, help: &'a str) -> Arg<'a>
    ensures rule { rule_of result ≡ option_rule name.now }
    ensures own { result.global ≡ false }
{
    Arg::new(alloc, name)
        .long(name)
        .value_name(value)
        .help(help)
        .action(ArgAction::Set)
}

/// An argument that is known by its place, which help shows as `value`.
pub(crate) fn placed<'a>(alloc: Global, name: &'a str, value: &'a str, help: &'a str) -> Arg<'a>
    ensures rule { rule_of result ≡ place_rule name.now }
    ensures own { result.global ≡ false }
{
    Arg::new(alloc, name)
        .value_name(value)
        .help(help)
        .action(ArgAction::Set)
}

/// A whole number from 0 to `most` that is known by its place, which help shows as `N`.
pub(crate) fn placed_number<'a>(alloc: Global, name: &'a str, help: &'a str, most: u64) -> Arg<'a>
    requires { most < 2 ^ 63 }
    ensures rule { rule_of result ≡ number_place_rule name.now 0 most }
    ensures own { result.global ≡ false }
{
    placed(alloc, name, "N", help).value_parser(value_parser!(u64).range(0..=most as i64))
}

/// Three to six words at the end, which help shows as `values`; or none. After the first of them each word is one, also a
/// word that begins with a hyphen.
pub(crate) fn last<'a>(
    alloc: Global,
    name: &'a str,
    values: &'a [&'a str],
    help: &'a str,
) -> Arg<'a>
    ensures rule { rule_of result ≡ last_rule name.now (length values.now) }
    ensures own { result.global ≡ false }
{
    Arg::new(alloc, name)
        .value_names(values)
        .num_args(3..=6)
        .trailing_var_arg(true)
        .help(help)
        .action(ArgAction::Set)
}

/// The option, made mandatory.
pub(crate) fn required<'a>(option: Arg<'a>) -> Arg<'a>
    ensures rule { rule_of result ≡ spec.with_required (rule_of option.entry) }
    ensures own { result.global ≡ option.entry.global }
{
    option.required(true)
}

/// The option, with a default value.
fn or<'a>(option: Arg<'a>, default: &'a str) -> Arg<'a>
    ensures rule { rule_of result ≡ spec.with_default default.now (rule_of option.entry) }
    ensures own { result.global ≡ option.entry.global }
{
    option.default_value(default)
}

/// An option `--NAME` whose value is a whole number from `least` to `most`, which help shows as `value`.
pub(crate) fn ranged<'a>(
    alloc: Global,
    name: &'a str,
    value: &'a str,
    help: &'a str,
    least: u32,
    most: u64,
) -> Arg<'a>
    requires { most < 2 ^ 63 }
    ensures rule { rule_of result ≡ number_rule name.now least most }
    ensures own { result.global ≡ false }
{
    option(alloc, name, value, help).value_parser(value_parser!(u64).range(
        i64::from(least)..=most as i64,
    ))
}

/// An option `--NAME` whose value is a whole number from `least` to `most`, which help shows as `N`.
pub(crate) fn number<'a>(
    alloc: Global,
    name: &'a str,
    help: &'a str,
    least: u32,
    most: u64,
) -> Arg<'a>
    requires { most < 2 ^ 63 }
    ensures rule { rule_of result ≡ number_rule name.now least most }
    ensures own { result.global ≡ false }
{
    ranged(alloc, name, "N", help, least, most)
}

/// An option `--NAME` without a value.
pub(crate) fn flag<'a>(alloc: Global, name: &'a str, help: &'a str) -> Arg<'a>
    ensures rule { rule_of result ≡ flag_rule name.now }
    ensures own { result.global ≡ false }
{
    Arg::new(alloc, name)
        .long(name)
        .help(help)
        .action(ArgAction::SetTrue)
}

/// The command with one further option `--NAME`, which is mandatory.
pub(crate) fn with_required<'a>(
    alloc: Global,
    command: Draft<'a>,
    name: &'a str,
    value: &'a str,
    help: &'a str,
) -> Draft<'a>
    ensures { Adds (λ s. with_rule s (required_rule name.now)) command.entry result }
{
    command.with(required(option(alloc, name, value, help)))
}

/// The command with one further option `--NAME`, which may be left out.
pub(crate) fn with_optional<'a>(
    alloc: Global,
    command: Draft<'a>,
    name: &'a str,
    value: &'a str,
    help: &'a str,
) -> Draft<'a>
    ensures { Adds (λ s. with_rule s (option_rule name.now)) command.entry result }
{
    command.with(option(alloc, name, value, help))
}

/// The command with one further option, which has this default value.
pub(crate) fn with_default<'a>(command: Draft<'a>, option: Arg<'a>, default: &'a str) -> Draft<'a>
    requires own { option.global ≡ false }
    ensures { (r : Rule) → rule_of option.entry ≡ r → Adds (λ s. with_rule s (spec.with_default default.now r)) command.entry result }
{
    command.with(or(option, default))
}
