//! What the words that were read ask for.
ghost use Rattle.std.specs.Prelude.{◌≡◌, Option, map, option_map};
ghost use Rattle.clap.specs.Words.{Text, first_of, found_of, rows_of, subcommand_rows_of};
ghost use Rattle.vp_language.specs.declared.language.Language.{Language};
ghost use Rattle.vp_command_line.specs.Asked.{Lists, IsAnswer, IsReading, asked, asked_in, form_of, is_given, join_asked, labels, labels_asked, language_named, language_of_width, list_asked, name_in, receipt_asked, receipts, stream_asked};
ghost use Rattle.vp_command_line.specs.Described.{IsProgram};
ghost use Rattle.vp_command_line.specs.Words.{Choices};
ghost use Rattle.vp_command_line.specs.declared.order.Order.TheVariants.{Read};

use crate::order::{Fonts, Form, Order, Stream, Task};
use clap::error::ErrorKind;
use clap::{ArgMatches, Command, Error};
use std::convert::AsStr;
use vp_language::Language;

/// The value of this name.
fn value<'a>(words: &ArgMatches<'a>, name: &str) -> Option<&'a str>
    ensures { name_in result ≡ first_of name.now (rows_of (found_of words.now)) }
{
    words.get_str(name)
}

/// A flag is given.
fn is_given(words: &ArgMatches<'_>, flag: &str) -> bool
    ensures { result ≡ is_given flag.now (rows_of (found_of words.now)) }
{
    matches!(value(words, flag), Some("true"))
}

/// The subcommand, with what was read for it.
fn subcommand<'w, 'a>(words: &'w ArgMatches<'a>) -> Option<(&'a str, &'w ArgMatches<'a>)>
    ensures { option_map (λ p. (p.0.now, rows_of (found_of p.1.now))) result ≡ subcommand_rows_of words.now }
{
    words.subcommand()
}

/// A receipt that is printed.
fn printed_receipt<'a>(words: &ArgMatches<'a>) -> Stream<'a>
    ensures { asked (Read result) ≡ receipt_asked (rows_of (found_of words.now)) }
{
    Stream {
        task: Task::Print(Fonts {
            a: value(words, "font-a"),
            b: value(words, "font-b"),
        }),
        language: language_of_width(value(words, "width"), is_given(words, "whole")),
        file: value(words, "FILE"),
    }
}

/// Labels that are printed. They have no font but A.
fn printed_labels<'a>(words: &ArgMatches<'a>) -> Stream<'a>
    ensures { asked (Read result) ≡ labels_asked (rows_of (found_of words.now)) }
{
    Stream {
        task: Task::Print(Fonts {
            a: value(words, "font-a"),
            b: None,
        }),
        language: labels(is_given(words, "whole")),
        file: value(words, "FILE"),
    }
}

/// A stream that is listed.
fn listed<'a>(words: &ArgMatches<'a>) -> Stream<'a>
    ensures { asked (Read result) ≡ list_asked (rows_of (found_of words.now)) }
{
    Stream {
        task: listing(is_given(words, "offsets")),
        language: language_named(value(words, "lang"), is_given(words, "whole")),
        file: value(words, "FILE"),
    }
}

/// What the words ask for; none without a subcommand, or where it lacks what it requires.
fn asked<'a>(words: &ArgMatches<'a>) -> Option<Order<'a>>
    ensures { option_map asked result ≡ asked_in (subcommand_rows_of words.now) }
{
    let order = match subcommand(words)? {
        ("join", join) => Order::Join {
            file: value(join, "FILE")?,
            form: form(is_given(join, "png")),
        },
        ("list", list) => Order::Read(listed(list)),
        ("label", label) => Order::Read(printed_labels(label)),
        (_, receipt) => Order::Read(printed_receipt(receipt)),
    };
    Some(order)
}

/// What the words ask this command for.
fn asked_of<'a, S: AsStr>(
    command: &mut Command<'a>,
    words: &'a [S],
) -> Result<Option<Order<'a>>, Error>
    ensures { (choices : Choices) → IsProgram choices command.old →
        IsReading choices (map S.text words.entry.now) result }
{
    let matches = command.try_get_matches_from_mut(words)?;
    Ok(asked(&matches))
}

/// The order that the words give this command.
pub fn order_of<'a, S: AsStr>(command: &mut Command<'a>, words: &'a [S]) -> Result<Order<'a>, Error>
    ensures { (choices : Choices) → IsProgram choices command.old →
        IsAnswer choices (map S.text words.entry.now) result }
{
    match asked_of(command, words)? {
        Some(order) => Ok(order),
        None => Err(command.error(ErrorKind::MissingSubcommand, "a subcommand is wanted")?),
    }
}

/// Receipts on paper of this width, by all commands or by those of the profile.
fn language_of_width(width: Option<&str>, whole: bool) -> Language
    ensures { result ≡ language_of_width (name_in width.entry) whole }
{
    match width {
        Some("384") if whole => Language::WholeReceipt58,
        Some("384") => Language::Receipt58,
        _ => receipts(whole),
    }
}

/// Receipts on the wider paper.
fn receipts(whole: bool) -> Language
    ensures { result ≡ receipts whole }
{
    if whole {
        Language::WholeReceipt
    } else {
        Language::Receipt
    }
}

/// Labels, by their whole language or by its profile.
fn labels(whole: bool) -> Language
    ensures { result ≡ labels whole }
{
    if whole {
        Language::WholeLabel
    } else {
        Language::Label
    }
}

/// A listing, with places or without.
fn listing<'a>(offsets: bool) -> Task<'a>
    ensures { (language : Language) (file : Option Text) →
        stream_asked result language file ≡ Lists offsets language file }
{
    if offsets {
        Task::ListWithOffsets
    } else {
        Task::List
    }
}

/// The form that a joined image is written in.
fn form(png: bool) -> Form
    ensures { result ≡ form_of png }
{
    if png { Form::Png } else { Form::Pbm }
}

/// The language of this name, one of those that can be listed.
fn language_named(name: Option<&str>, whole: bool) -> Language
    ensures { result ≡ language_named (name_in name.entry) whole }
{
    match name {
        Some("label") => labels(whole),
        _ => receipts(whole),
    }
}
