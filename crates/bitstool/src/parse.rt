//! The meaning of the arguments, read with `clap`.

ghost use Rattle.std.specs.Prelude.{◌≡◌, ◌++◌, ◌<◌, ◌^◌, ◌↔◌, ℕ, false, map, string_bytes, IfOk, IfErr, IfSome, IsSome, IsTrue, MatchResult, OnOk, Some};
ghost use Rattle.bitstool.specs.declared.task.Parsed.{Parsed as ParsedValue};
ghost use Rattle.clap.specs.Words.{app_of, found_of, kind_of, rows_of, rule_of, subcommand_rows_of};
ghost use Rattle.bitstool.specs.Words.{with_numbers, FindsAll, HasAllLimits, HasExplain, HasFormat, HasLimits, HasLeftOut, HasNumber, HasShapes, HasStyle, HasValues, IsGiven, IsNormal, IsSame, IsShow, Means, Misnamed, MisnamedIn, MisnamesIn, Says, GivesNoTask, Shows, ShowsError, TellsOf, NamesBlocks, NamesRecords};
ghost use Rattle.bitstool.specs.Words.{for_all_commands, bitstool, flag_rule, leaving, limit_rule, with_json, with_limits, name_rule, number_rule, comparing, telling, after_text, help_last, tip_of, wrong_value};

use crate::names::{Unnamed, blocks_named, records_named};
use crate::task::{Explain, LeftOut, Parsed, Task};
use bit_fields::{Limits, MOST_BYTES, MOST_DEPTH, MOST_VALUES, Shapes};
use bit_norm::FORM_VERSION;
use bit_scan::{EventStyle, Format, ValueDisplay};
use bit_tree::RecordName;
use clap::builder::ValueParser;
use clap::error::ErrorKind;
use clap::{Arg, ArgAction, ArgMatches, Command, Error};
use std::alloc::{AllocError, Global};
use std::fmt::Display;

/// The version of the program.
const VERSION: &str = "1.0.0";

const ABOUT: &str =
    "Reads files in the LLVM bitstream container: bitcode modules, precompiled headers, diagnostics.
The input is standard input; the output is standard output.

With no arguments it writes the normal form of the input, as `bitstool normal` does. An input that
breaks the rules is refused with one line on standard error, which names the reason and the bit.
Then `events` has written the lines before the error, and the other commands have written nothing.

Examples:
  bitstool help COMMAND          the options of a command
  bitstool analyse < FILE        its kinds of blocks and records, and where its bits go
  bitstool show < FILE | less    all blocks and records, in order
  bitstool events < FILE | tail  the last items before the error in a damaged file
  bitstool normal --drop-info < FILE > NORMAL
  cat FILE OTHER | bitstool same --where --first $(wc -c < FILE)";

const USAGE: &str = "bitstool [COMMAND]";

const AFTER: &str =
    "Exit status: 0 done, or the inputs are the same; 1 refused, or the inputs are different;
2 wrong arguments; 3 a read, a write or an allocation failed.";

const CHECK: &str =
    "Prints `accepted` if the input spells a tree of blocks and records, and otherwise
the reason and the bit of the refusal";

const NORMAL: &str =
    "Writes the normal form of the input: equal trees have equal normal forms, whatever
abbreviations, widths and wrapper the input has";

const SAME: &str =
    "Compares the trees of two inputs, one after the other on standard input, and prints
`same` or `different`";

const ANALYSE: &str =
    "Prints counts and bits: a line for each block id, and under it a line for each code of
its records";

const SHOW: &str =
    "Prints the tree of the input: a line for each block with its id, and a line for each
record with its code and values, indented by depth";

const EVENTS: &str =
    "Prints a line for each item as it is read: its bit, and the block, definition, record
or end of a block there. If the input is refused, these are the lines before the error";

const ASSEMBLE: &str =
    "Writes the normal form of the tree that a listing spells, a text as `show` prints it;
empty lines and comments after # are skipped, and 0x begins a hexadecimal number";

const SHAPES: &str = "Judge the order of a definition's operands when a record uses it,
as LLVM's reader does, and not at the definition; precompiled headers
and module files of Clang 19 and later need this";

const BYTES: &str = "Most bytes of the input, and of a normal form;
at most 17179869180";

const VALUES: &str = "Most values of all records together;
at most 4294967295";

const BLOCKS: &str = "Leave out all blocks with this id, at any depth, with their contents;
may be repeated";

const RECORDS: &str = "Leave out all records with this code directly in blocks with this id,
which is not 0; may be repeated";

const INFO: &str = "Leave out all BLOCKINFO blocks, which hold definitions for other
blocks and no content, as --drop-block 0 does";

const JSON: &str = "Write JSON lines, one object a line; numbers from 2^53 on are strings
of their digits";

const SAME_JSON: &str = "Write one line of JSON, which also says where they first differ";

const FIRST: &str = "Number of bytes of the first input; the rest is the second;
at most 17179869180";

const TIP: &str = "
  tip: the input is read from standard input, as in 'bitstool check < FILE'; no file is opened,
  so no input can make the program touch one; 'bitsame FILE OTHER' compares two files
";

const NUMBER_TIP: &str = "
  tip: a number is written in plain digits, as in 1073741824, and not as 1G, 1e9 or 0x10
";

/// An option with a number from 0 to `most`.
fn number_option<'a>(alloc: Global, name: &'a str, most: u64) -> Arg<'a>
    ensures rule { rule_of result ≡ number_rule name.entry.now most }
    ensures local { result.global ≡ false }
{
    Arg::new(alloc, name)
        .long(name)
        .value_name("N")
        .value_parser(ValueParser::unsigned(0, most))
}

/// An option for a limit.
fn limit<'a>(alloc: Global, name: &'a str, usual: &'a str, most: u64, help: &'a str) -> Arg<'a>
    ensures rule { rule_of result ≡ limit_rule name.entry.now usual.entry.now most }
    ensures local { result.global ≡ false }
{
    number_option(alloc, name, most)
        .default_value(usual)
        .help(help)
}

/// An option with a name of what is left out. It may be repeated.
fn name_option<'a>(alloc: Global, name: &'a str, value: &'a str, help: &'a str) -> Arg<'a>
    ensures rule { rule_of result ≡ name_rule name.entry.now }
    ensures local { result.global ≡ false }
{
    Arg::new(alloc, name)
        .long(name)
        .value_name(value)
        .action(ArgAction::Append)
        .help(help)
}

/// A flag.
fn flag<'a>(alloc: Global, name: &'a str, help: &'a str) -> Arg<'a>
    ensures rule { rule_of result ≡ flag_rule name.entry.now }
    ensures local { result.global ≡ false }
{
    Arg::new(alloc, name)
        .long(name)
        .action(ArgAction::SetTrue)
        .help(help)
}

/// A command with the limits that are numbers as its options.
fn with_numbers<'a>(alloc: Global, name: &'a str, about: &'a str) -> Result<Command<'a>, AllocError>
    ensures { IfOk result (λ command. app_of command ≡ (with_numbers name.entry.now)) }
{
    let bytes = limit(alloc, "bytes", "1073741824", MOST_BYTES, BYTES);
    let depth = limit(
        alloc,
        "depth",
        "64",
        u64::from(MOST_DEPTH),
        "Most levels of nested blocks; at most 255",
    );
    let values = limit(alloc, "values", "134217728", MOST_VALUES, VALUES);
    Command::new(alloc, name)
        .about(about)
        .arg(bytes)?
        .arg(depth)?
        .arg(values)
}

/// A command with the limits as its options.
fn with_limits<'a>(alloc: Global, name: &'a str, about: &'a str) -> Result<Command<'a>, AllocError>
    ensures { IfOk result (λ command. app_of command ≡ (with_limits name.entry.now)) }
{
    let shapes = flag(alloc, "shapes-at-use", SHAPES);
    with_numbers(alloc, name, about)?.arg(shapes)
}

/// A command with the limits as its options, and the options that name what is left out.
fn leaving<'a>(alloc: Global, name: &'a str, about: &'a str) -> Result<Command<'a>, AllocError>
    ensures { IfOk result (λ command. app_of command ≡ (leaving name.entry.now)) }
{
    let blocks = name_option(alloc, "drop-block", "ID", BLOCKS);
    let records = name_option(alloc, "drop-record", "ID:CODE", RECORDS);
    let info = flag(alloc, "drop-info", INFO);
    with_limits(alloc, name, about)?
        .arg(blocks)?
        .arg(records)?
        .arg(info)
}

/// The command that compares two inputs.
fn comparing<'a>(alloc: Global) -> Result<Command<'a>, AllocError>
    ensures { IfOk result (λ command. app_of command ≡ comparing) }
{
    let first = number_option(alloc, "first", MOST_BYTES)
        .required(true)
        .help(FIRST);
    let place = flag(alloc, "where", "Print also where they first differ");
    let json = flag(alloc, "json", SAME_JSON);
    leaving(alloc, "same", SAME)?
        .arg(first)?
        .arg(place)?
        .arg(json)
}

/// A command with the limits as its options, and the flag for JSON lines.
fn with_json<'a>(alloc: Global, name: &'a str, about: &'a str) -> Result<Command<'a>, AllocError>
    ensures { IfOk result (λ command. app_of command ≡ (with_json name.entry.now)) }
{
    let json = flag(alloc, "json", JSON);
    with_limits(alloc, name, about)?.arg(json)
}

/// The command that lists events.
fn telling<'a>(alloc: Global) -> Result<Command<'a>, AllocError>
    ensures { IfOk result (λ command. app_of command ≡ telling) }
{
    let values = flag(alloc, "no-values", "Leave out the values of records");
    with_json(alloc, "events", EVENTS)?.arg(values)
}

/// The settings for all commands.
fn above<'a>(alloc: Global) -> Result<Command<'a>, AllocError>
    ensures { IfOk result (λ command. app_of command ≡ for_all_commands) }
{
    Command::new(alloc, "bitstool")
        .version(VERSION)
        .about(ABOUT)
        .override_usage(USAGE)
        .after_help(AFTER)
        .no_binary_name(true)
        .disable_help_subcommand(true)
        .subcommand_required(true)
        .bin_name("bitstool")
}

/// The whole command line.
fn command<'a>(alloc: Global) -> Result<Command<'a>, AllocError>
    ensures { IfOk result (λ command. app_of command ≡ bitstool) }
{
    let check = with_limits(alloc, "check", CHECK)?;
    let normal = leaving(alloc, "normal", NORMAL)?;
    let same = comparing(alloc)?;
    let analyse = with_json(alloc, "analyse", ANALYSE)?;
    let show = leaving(alloc, "show", SHOW)?;
    let events = telling(alloc)?;
    let assemble = with_numbers(alloc, "assemble", ASSEMBLE)?;
    above(alloc)?
        .subcommand(check)?
        .subcommand(normal)?
        .subcommand(same)?
        .subcommand(analyse)?
        .subcommand(show)?
        .subcommand(events)?
        .subcommand(assemble)
}

/// The number given for an option.
fn number(matches: &ArgMatches<'_>, name: &str) -> Option<u64>
    ensures number { IfSome result (λ n. HasNumber name.now (rows_of (found_of matches.now)) n) }
    ensures found { (n : ℕ) → HasNumber name.now (rows_of (found_of matches.now)) n → n < 2 ^ 64
        → result ≡ Some n }
{
    matches.get_one(name)
}

/// Whether a flag was given.
fn is_given(matches: &ArgMatches<'_>, name: &str) -> bool
    ensures { IsTrue result ↔ IsGiven name.now (rows_of (found_of matches.now)) }
{
    match matches.get_one::<bool>(name) {
        Some(true) => true,
        Some(false) => false,
        None => false,
    }
}

/// Where a command judges the shapes of definitions, by its flag.
fn shapes_of(matches: &ArgMatches<'_>) -> Shapes
    ensures { HasShapes (rows_of (found_of matches.now)) result }
{
    if is_given(matches, "shapes-at-use") {
        Shapes::AtUse
    } else {
        Shapes::AtDefinition
    }
}

/// The limits given to a command.
fn limits_of(matches: &ArgMatches<'_>) -> Option<Limits>
    ensures limits { IfSome result (λ limits. HasLimits (rows_of (found_of matches.now)) limits) }
    ensures found { HasAllLimits (rows_of (found_of matches.now)) → IsSome result }
{
    let bytes = number(matches, "bytes")?;
    let depth = u32::try_from(number(matches, "depth")?).ok()?;
    let values = number(matches, "values")?;
    let limits = Limits::new(bytes, depth, values)?;
    match shapes_of(matches) {
        Shapes::AtDefinition => Some(limits),
        Shapes::AtUse => Some(limits.shapes_at_use()),
    }
}

/// The ids of the blocks that a command leaves out.
fn blocks_of<'a>(alloc: Global, matches: &ArgMatches<'a>) -> Result<Vec<u32>, Unnamed<'a>>
    ensures { MatchResult result (λ ids. NamesBlocks (rows_of (found_of matches.now)) ids.items)
        (Misnamed (rows_of (found_of matches.now))) }
{
    match matches.get_strs("drop-block") {
        Some(given) => blocks_named(alloc, given),
        None => Ok(Vec::new(alloc)),
    }
}

/// The names of the records that a command leaves out.
fn records_of<'a>(alloc: Global, matches: &ArgMatches<'a>) -> Result<Vec<RecordName>, Unnamed<'a>>
    ensures { MatchResult result (λ names. NamesRecords (rows_of (found_of matches.now))
        names.items) (Misnamed (rows_of (found_of matches.now))) }
{
    match matches.get_strs("drop-record") {
        Some(given) => records_named(alloc, given),
        None => Ok(Vec::new(alloc)),
    }
}

/// The blocks and records that a command leaves out.
fn left_out<'a>(alloc: Global, matches: &ArgMatches<'a>) -> Result<LeftOut, Unnamed<'a>>
    ensures { MatchResult result (HasLeftOut (rows_of (found_of matches.now)))
        (Misnamed (rows_of (found_of matches.now))) }
{
    let mut blocks = blocks_of(alloc, matches)?;
    let records = records_of(alloc, matches)?;
    if is_given(matches, "drop-info") && blocks.push(0).is_err() {
        return Err(Unnamed::Memory);
    }
    Ok(LeftOut { blocks, records })
}

/// Whether a command leaves values out.
fn values_of(matches: &ArgMatches<'_>) -> ValueDisplay
    ensures { HasValues (rows_of (found_of matches.now)) result }
{
    if is_given(matches, "no-values") {
        ValueDisplay::LeftOut
    } else {
        ValueDisplay::Shown
    }
}

/// The format of the lines that a command writes.
fn format_of(matches: &ArgMatches<'_>) -> Format
    ensures { HasFormat (rows_of (found_of matches.now)) result }
{
    if is_given(matches, "json") {
        Format::JsonLines
    } else {
        Format::Text
    }
}

/// The report of a comparison on two inputs that differ.
fn explain_of(matches: &ArgMatches<'_>) -> Explain
    ensures { HasExplain (rows_of (found_of matches.now)) result }
{
    if is_given(matches, "json") {
        return Explain::Json;
    }
    if is_given(matches, "where") {
        Explain::Lines
    } else {
        Explain::Word
    }
}

/// The style in which a command writes events.
fn style_of(matches: &ArgMatches<'_>) -> EventStyle
    ensures { HasStyle (rows_of (found_of matches.now)) result }
{
    EventStyle {
        format: format_of(matches),
        values: values_of(matches),
    }
}

/// The task of writing a normal form.
fn normal_of<'a>(
    alloc: Global,
    limits: Limits,
    matches: &ArgMatches<'a>,
) -> Result<Task, Unnamed<'a>>
    ensures { MatchResult result (IsNormal limits (rows_of (found_of matches.now)))
        (Misnamed (rows_of (found_of matches.now))) }
{
    let left = left_out(alloc, matches)?;
    Ok(Task::Normal { limits, left })
}

/// The task of comparing two inputs.
fn same_of<'a>(
    alloc: Global,
    first: u64,
    limits: Limits,
    matches: &ArgMatches<'a>,
) -> Result<Task, Unnamed<'a>>
    ensures { MatchResult result (IsSame first limits (rows_of (found_of matches.now)))
        (Misnamed (rows_of (found_of matches.now))) }
{
    let left = left_out(alloc, matches)?;
    Ok(Task::Same {
        first,
        explain: explain_of(matches),
        limits,
        left,
    })
}

/// The task of listing.
fn show_of<'a>(alloc: Global, limits: Limits, matches: &ArgMatches<'a>) -> Result<Task, Unnamed<'a>>
    ensures { MatchResult result (IsShow limits (rows_of (found_of matches.now)))
        (Misnamed (rows_of (found_of matches.now))) }
{
    let left = left_out(alloc, matches)?;
    Ok(Task::Show { limits, left })
}

/// The given command, or the reason why the names of what it leaves out are invalid.
fn task_of<'a>(alloc: Global, matches: &ArgMatches<'a>) -> Option<Result<Task, Unnamed<'a>>>
    ensures task { IfSome result (λ answer. MatchResult answer
        (Means (subcommand_rows_of matches.now)) (MisnamedIn (subcommand_rows_of matches.now))) }
    ensures found { FindsAll (subcommand_rows_of matches.now) → IsSome result }
{
    let (name, inner) = matches.subcommand()?;
    let limits = limits_of(inner)?;
    match name {
        "check" => Some(Ok(Task::Check { limits })),
        "normal" => Some(normal_of(alloc, limits, inner)),
        "same" => Some(same_of(alloc, number(inner, "first")?, limits, inner)),
        "analyse" => Some(Ok(Task::Analyse {
            limits,
            format: format_of(inner),
        })),
        "show" => Some(show_of(alloc, limits, inner)),
        "events" => Some(Ok(Task::Events {
            limits,
            style: style_of(inner),
        })),
        "assemble" => Some(Ok(Task::Assemble { limits })),
        _ => None,
    }
}

/// The task that the arguments mean, or the reason why the names in them are invalid.
fn task<'a>(alloc: Global, words: &'a [String]) -> Result<Result<Task, Unnamed<'a>>, Error>
    ensures ok { IfOk result (λ answer. MatchResult answer
        (λ task. Says (map string_bytes words.entry.now) (ParsedValue.Task task))
        (MisnamesIn (map string_bytes words.entry.now))) }
    ensures err { IfErr result (λ error. GivesNoTask (map string_bytes words.entry.now)
        (kind_of error)) }
{
    let mut command = command(alloc)?;
    let matches = command.try_get_matches_from_mut(words)?;
    Ok(task_of(alloc, &matches).unwrap())
}

/// A usage fault for a text that is invalid for an option, with what the option needs.
fn wrong_value(alloc: Global, text: &str, option: &str, wanted: &str) -> Result<String, AllocError>
    ensures { IfOk result (λ line. string_bytes line ≡ wrong_value text.now option.now wanted.now) }
{
    format!(in alloc;
        "error: invalid value '{text}' for '{option}': {wanted}\n\nFor more information, try '--help'.\n"
    )
}

/// The result if names are invalid.
fn fault_of_names(alloc: Global, why: Unnamed<'_>) -> Parsed
    ensures { TellsOf why.entry result }
{
    let line = match why {
        Unnamed::Block(text) => {
            wrong_value(
                alloc,
                text,
                "--drop-block <ID>",
                "no ID from 0 to 4294967295",
            )
        }
        Unnamed::Record(text) => wrong_value(
            alloc,
            text,
            "--drop-record <ID:CODE>",
            "no ID from 1 to 4294967295, colon, and CODE from 0 to 18446744073709551615",
        ),
        Unnamed::Memory => return Parsed::Memory,
    };
    match line {
        Ok(line) => Parsed::Usage(line),
        Err(AllocError) => Parsed::Memory,
    }
}

/// The tip after the text of an error of this kind: where the input is read from, if a word may be the name of a file; how a number is
/// written, if a word is none. An unknown option is no file, and only the text of the error says which word it is about.
fn tip_of(kind: ErrorKind, text: &str) -> &'static str
    ensures { result.now ≡ tip_of kind text.now }
{
    match kind {
        ErrorKind::InvalidSubcommand => TIP,
        ErrorKind::ValueValidation => {
            if text.ends_with(
                ": invalid digit found in string\n\nFor more information, try '--help'.\n",
            ) {
                NUMBER_TIP
            } else {
                ""
            }
        }
        ErrorKind::UnknownArgument => {
            if text.starts_with("error: unexpected argument '--") {
                ""
            } else {
                TIP
            }
        }
        _ => "",
    }
}

/// Appends what comes after the text of an error of this kind: a tip, or the version of the normal form after that of the program.
fn push_after(text: &mut String, kind: ErrorKind) -> Result<(), AllocError>
    ensures { OnOk result (string_bytes text.new
        ≡ string_bytes text.old ++ after_text kind (string_bytes text.old)) }
{
    match kind {
        ErrorKind::DisplayVersion => write!(text, "normal form {FORM_VERSION}\n"),
        _ => {
            let tip = tip_of(kind, text);
            text.push_str(tip)
        }
    }
}

/// The text that an error displays, what comes after it, and the end of the line if it is missing.
fn shown<E: Display>(alloc: Global, error: &E, kind: ErrorKind) -> Result<String, AllocError>
    ensures { IfOk result (λ text. Shows (E.output error.now) kind (string_bytes text)) }
{
    let mut text = error.to_string(alloc)?;
    push_after(&mut text, kind)?;
    if text.ends_with('\n') {
        return Ok(text);
    }
    text.push('\n')?;
    Ok(text)
}

/// The text of an error, for the output or the errors.
fn text_of_error(alloc: Global, error: &Error) -> Result<Parsed, AllocError>
    ensures { IfOk result (λ parsed. ShowsError (kind_of error.now) parsed) }
{
    let text = shown(alloc, error, error.kind())?;
    if !error.use_stderr() {
        return Ok(Parsed::Help(text));
    }
    if text.starts_with("error: ") {
        return Ok(Parsed::Usage(text));
    }
    Ok(Parsed::Usage(format!(in alloc; "error: {text}")?))
}

/// The meaning of these arguments, which do not begin with the word `help`.
fn meaning(alloc: Global, words: &[String]) -> Parsed
    ensures { Says (map string_bytes words.now) result }
{
    match task(alloc, words) {
        Ok(Ok(task)) => Parsed::Task(task),
        Ok(Err(why)) => fault_of_names(alloc, why),
        Err(error) => match error.kind() {
            ErrorKind::OutOfMemory => Parsed::Memory,
            _ => text_of_error(alloc, &error).unwrap_or(Parsed::Memory),
        },
    }
}

/// The arguments, with `--help` at their end in place of the word `help` at their beginning.
fn with_help_last(alloc: Global, mut words: Vec<String>) -> Result<Vec<String>, AllocError>
    ensures { IfOk result (λ new. map string_bytes new.items
        ≡ help_last (map string_bytes words.items)) }
{
    if words.is_empty() || words[0].as_str() != "help" {
        return Ok(words);
    }
    let _ = words.remove(0);
    words.push(String::from_str(alloc, "--help")?)?;
    Ok(words)
}

/// The meaning of these arguments.
pub fn parse(alloc: Global, words: Vec<String>) -> Parsed
    ensures { Says (help_last (map string_bytes words.items)) result }
{
    match with_help_last(alloc, words) {
        Ok(words) => meaning(alloc, &words),
        Err(AllocError) => Parsed::Memory,
    }
}
