//! The words that are read.
ghost use Rattle.std.specs.Prelude.{◌≡◌, ◌∷◌, [], IfOk, Ok, codes};
ghost use Rattle.clap.specs.Words.{AddsSubcommand};
ghost use Rattle.clap.specs.declared.builder.command.Command.{Command};
ghost use Rattle.vp_command_line.specs.Described.{IsArg, IsChoice, IsChoosing, IsCommand, IsProgram};
ghost use Rattle.vp_command_line.specs.Words.{Choices, by_default, choice, file, flag, join, label, list, option, receipt, top, wanted};

use clap::{Arg, ArgAction, Command};
use std::alloc::{AllocError, Global};

/// The program's version. Its first number is raised where a stream prints other bytes than before.
pub const VERSION: &str = "1.1.0";

/// The widths of paper, in dots.
const WIDTHS: [&str; 2] = ["576", "384"];

/// The languages that can be listed.
const LANGUAGES: [&str; 2] = ["receipt", "label"];

/// The file that is read.
fn file<'a>(alloc: Global) -> Arg<'a>
    ensures { IsArg file result }
{
    Arg::new(alloc, "FILE").help("What was sent to the printer [default: standard input]")
}

/// The images that are joined.
fn images<'a>(alloc: Global) -> Arg<'a>
    ensures { IsArg (wanted file) result }
{
    Arg::new(alloc, "FILE")
        .required(true)
        .help("Images of one width, as they were printed; read twice")
}

/// Whether the joined image is written as PNG.
fn png<'a>(alloc: Global) -> Arg<'a>
    ensures { IsArg (flag (codes "png")) result }
{
    Arg::new(alloc, "png")
        .long("png")
        .action(ArgAction::SetTrue)
        .help("Write a PNG file, at most 1,664 dots wide")
}

/// The width of the paper.
fn width<'a>(alloc: Global) -> Arg<'a>
    ensures { IsChoice (λ widths. by_default (codes "576") (choice (codes "width") widths))
        (codes "576" ∷ codes "384" ∷ []) result }
{
    Arg::new(alloc, "width")
        .long("width")
        .value_name("DOTS")
        .value_parser(WIDTHS.as_slice())
        .default_value("576")
        .help("Width of the paper")
}

/// Whether the whole language is read.
fn whole<'a>(alloc: Global, help: &'a str) -> Arg<'a>
    ensures { IsArg (flag (codes "whole")) result }
{
    Arg::new(alloc, "whole")
        .long("whole")
        .action(ArgAction::SetTrue)
        .help(help)
}

fn whole_receipt<'a>(alloc: Global) -> Arg<'a>
    ensures { IsArg (flag (codes "whole")) result }
{
    whole(
        alloc,
        "Read all commands of receipts, and past unknown ones, where else they are a fault",
    )
}

fn whole_label<'a>(alloc: Global) -> Arg<'a>
    ensures { IsArg (flag (codes "whole")) result }
{
    whole(
        alloc,
        "Read more commands of labels, as of more symbols, which else are skipped",
    )
}

fn whole_stream<'a>(alloc: Global) -> Arg<'a>
    ensures { IsArg (flag (codes "whole")) result }
{
    whole(
        alloc,
        "Read all commands of receipts, and past unknown ones, or more commands of labels",
    )
}

/// The file of a sheet.
fn sheet<'a>(alloc: Global, name: &'a str, help: &'a str) -> Arg<'a>
    ensures { IsArg (option name.entry.now) result }
{
    Arg::new(alloc, name)
        .long(name)
        .value_name("FILE")
        .help(help)
}

fn font_a<'a>(alloc: Global) -> Arg<'a>
    ensures { IsArg (option (codes "font-a")) result }
{
    sheet(
        alloc,
        "font-a",
        "Glyph sheet of font A, PBM of 192 by 384 dots; without it characters are white",
    )
}

fn font_b<'a>(alloc: Global) -> Arg<'a>
    ensures { IsArg (option (codes "font-b")) result }
{
    sheet(
        alloc,
        "font-b",
        "Glyph sheet of font B, PBM of 144 by 272 dots",
    )
}

/// The language of a stream that is listed.
fn lang<'a>(alloc: Global) -> Arg<'a>
    ensures { IsChoice (λ languages. wanted (choice (codes "lang") languages))
        (codes "receipt" ∷ codes "label" ∷ []) result }
{
    Arg::new(alloc, "lang")
        .long("lang")
        .value_name("LANGUAGE")
        .value_parser(LANGUAGES.as_slice())
        .required(true)
        .help("What the stream is written in")
}

/// Whether the places of what is listed are.
fn offsets<'a>(alloc: Global) -> Arg<'a>
    ensures { IsArg (flag (codes "offsets")) result }
{
    Arg::new(alloc, "offsets")
        .long("offsets")
        .action(ArgAction::SetTrue)
        .help("Begin each line with the number of bytes read up to there")
}

fn receipt<'a>(alloc: Global) -> Result<Command<'a>, AllocError>
    ensures { IfOk result (IsChoosing receipt (codes "576" ∷ codes "384" ∷ [])) }
{
    Command::new(alloc, "receipt")
        .about("Prints a receipt (ESC/POS)")
        .arg(width(alloc))?
        .arg(whole_receipt(alloc))?
        .arg(font_a(alloc))?
        .arg(font_b(alloc))?
        .arg(file(alloc))
}

fn label<'a>(alloc: Global) -> Result<Command<'a>, AllocError>
    ensures { IfOk result (IsCommand label) }
{
    Command::new(alloc, "label")
        .about("Prints labels (ZPL II)")
        .arg(whole_label(alloc))?
        .arg(font_a(alloc))?
        .arg(file(alloc))
}

fn list<'a>(alloc: Global) -> Result<Command<'a>, AllocError>
    ensures { IfOk result (IsChoosing list (codes "receipt" ∷ codes "label" ∷ [])) }
{
    Command::new(alloc, "list")
        .about("Lists the commands of a stream, a line for each")
        .arg(lang(alloc))?
        .arg(whole_stream(alloc))?
        .arg(offsets(alloc))?
        .arg(file(alloc))
}

fn join<'a>(alloc: Global) -> Result<Command<'a>, AllocError>
    ensures { IfOk result (IsCommand join) }
{
    Command::new(alloc, "join")
        .about("Joins images to one, with all their rows in order")
        .arg(png(alloc))?
        .arg(images(alloc))
}

/// A command with one subcommand more.
fn with<'a>(
    command: Command<'a>,
    subcommand: Result<Command<'a>, AllocError>,
) -> Result<Command<'a>, AllocError>
    ensures { IfOk result (λ r. (s : Command) × (subcommand.entry ≡ Ok s) × AddsSubcommand command.entry s r) }
{
    command.subcommand(subcommand?)
}

/// The program without its subcommands.
fn vp<'a>(alloc: Global) -> Result<Command<'a>, AllocError>
    ensures { IfOk result (IsCommand top) }
{
    Ok(
        Command::new(alloc, "vp")
            .bin_name("vp")?
            .version(VERSION)
            .about(
                "A virtual printer that prints PBM images; without a glyph sheet characters are white",
            )
            .subcommand_required(true),
    )
}

/// The words that are read.
pub fn program<'a>(alloc: Global) -> Result<Command<'a>, AllocError>
    ensures { IfOk result (λ r. (choices : Choices) × IsProgram choices r) }
{
    let command = with(vp(alloc)?, receipt(alloc))?;
    let command = with(command, label(alloc))?;
    let command = with(command, list(alloc))?;
    with(command, join(alloc))
}
