//! The command line of the program.

ghost use Rattle.std.specs.Prelude.{◌≡◌, map, option_map};
ghost use Rattle.std.specs.String.{string_bytes};
ghost use Rattle.rs_source.specs.Arguments.{asked_by, asked_of, copy_of, format_of, made_by, made_of, mem_of, run_of, serve_of, served_by, served_of};

use rs_record::number;

/// SIZE, BASE and LIMIT: the parameters of a new source.
#[derive(Clone, Copy, Debug, PartialEq, Eq)]
pub struct SourceArguments<'a> {
    /// SIZE: the number of bytes of its disk.
    pub size: u64,
    /// BASE.
    pub base: &'a [u8],
    /// LIMIT: the item limit. A number past 65,535 is cut to that.
    pub limit: u16,
}

/// PORT and COUNT: the connections to serve.
#[derive(Clone, Copy, Debug, PartialEq, Eq)]
pub struct ServingArguments {
    /// PORT, or 0 for a free one.
    pub port: u16,
    /// COUNT: the number of connections to serve.
    pub count: u64,
}

/// A task that the command line requests.
#[derive(Clone, Copy, Debug, PartialEq, Eq)]
pub enum Invocation<'a> {
    /// `mem SIZE BASE LIMIT`: runs a script on a new source in memory.
    Mem(SourceArguments<'a>),
    /// `format FILE SIZE BASE LIMIT`: makes a source on a new file.
    Format(&'a str, SourceArguments<'a>),
    /// `run FILE`: runs a script on the source on a file.
    Run(&'a str),
    /// `serve FILE PORT COUNT`: serves connections to the source on a file.
    Serve(&'a str, ServingArguments),
    /// `copy OLD NEW SIZE`: copies the source on the file OLD to a new file NEW of SIZE bytes.
    Copy(&'a str, &'a str, u64),
}

/// Reads SIZE, BASE and LIMIT. Returns `None` where SIZE or LIMIT is not a number of 1 to 18 digits.
fn source_arguments<'a>(size: &str, base: &'a str, limit: &str) -> Option<SourceArguments<'a>>
    ensures { option_map made_by result ≡ made_of size.now base.now limit.now }
{
    let size = number(size.as_bytes(), 18)?;
    let limit = number(limit.as_bytes(), 18)?;
    Some(SourceArguments {
        size,
        base: base.as_bytes(),
        limit: limit.min(65_535) as u16,
    })
}

/// The maximum COUNT.
const MOST_CONNECTIONS: u64 = 1_000_000_000;

/// Reads PORT and COUNT. Returns `None` where one of them is not a number of 1 to 18 digits, PORT is past 65,535, or
/// COUNT is not from 1 to 1,000,000,000.
fn serving_arguments(port: &str, count: &str) -> Option<ServingArguments>
    ensures { option_map served_by result ≡ served_of port.now count.now }
{
    let port = number(port.as_bytes(), 18)?;
    let count = number(count.as_bytes(), 18)?;
    if port > 65_535 || count == 0 || count > MOST_CONNECTIONS {
        return None;
    }
    Some(ServingArguments {
        port: port as u16,
        count,
    })
}

/// Returns the task of `mem SIZE BASE LIMIT`.
fn mem_asked(arguments: &[String]) -> Option<Invocation<'_>>
    ensures { option_map asked_by result ≡ mem_of (map string_bytes arguments.now) }
{
    let [size, base, limit] = arguments else {
        return None;
    };
    let made = source_arguments(size, base, limit)?;
    Some(Invocation::Mem(made))
}

/// Returns the task of `format FILE SIZE BASE LIMIT`.
fn format_asked(arguments: &[String]) -> Option<Invocation<'_>>
    ensures { option_map asked_by result ≡ format_of (map string_bytes arguments.now) }
{
    let [file, size, base, limit] = arguments else {
        return None;
    };
    let made = source_arguments(size, base, limit)?;
    Some(Invocation::Format(file, made))
}

/// Returns the task of `run FILE`.
fn run_asked(arguments: &[String]) -> Option<Invocation<'_>>
    ensures { option_map asked_by result ≡ run_of (map string_bytes arguments.now) }
{
    let [file] = arguments else {
        return None;
    };
    Some(Invocation::Run(file))
}

/// Returns the task of `serve FILE PORT COUNT`.
fn serve_asked(arguments: &[String]) -> Option<Invocation<'_>>
    ensures { option_map asked_by result ≡ serve_of (map string_bytes arguments.now) }
{
    let [file, port, count] = arguments else {
        return None;
    };
    let serving = serving_arguments(port, count)?;
    Some(Invocation::Serve(file, serving))
}

/// Returns the task of `copy OLD NEW SIZE`.
fn copy_asked(arguments: &[String]) -> Option<Invocation<'_>>
    ensures { option_map asked_by result ≡ copy_of (map string_bytes arguments.now) }
{
    let [old, new, size] = arguments else {
        return None;
    };
    let size = number(size.as_bytes(), 18)?;
    Some(Invocation::Copy(old, new, size))
}

/// Returns the task that the arguments of the program request, or `None` where they are wrong. The first argument is
/// the name of the program.
pub fn asked(words: &[String]) -> Option<Invocation<'_>>
    ensures { option_map asked_by result ≡ asked_of (map string_bytes words.now) }
{
    let [_, command, arguments @ ..] = words else {
        return None;
    };
    match command.as_str() {
        "mem" => mem_asked(arguments),
        "format" => format_asked(arguments),
        "run" => run_asked(arguments),
        "serve" => serve_asked(arguments),
        "copy" => copy_asked(arguments),
        _ => None,
    }
}
