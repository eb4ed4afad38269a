//! The arguments of the program: their words, and what they ask for.

ghost use Rattle.std.specs.Prelude.{◌≡◌, [], ℕ, List, Option, IfErr, IfOk, codes, false, map, string_bytes};
ghost use Rattle.clap.specs.Simple.{app_of};
ghost use Rattle.clap.specs.Walk.{rule_of};
ghost use Rattle.clap.specs.Words.{kind_of};
ghost use Rattle.cilhost.specs.Arguments.{AreOf, AskForCheck, AskForCompile, AskForDecide, AskForOne, AskForSession, HasQuery, HasSize, HasWord};
ghost use Rattle.cilhost.specs.Commands.{IsCommand, cache_rule, check, compile, decide, file_rule, locate, optionals_rule, out_rule, program, program_of_modules, session, tables_rule, word_rule};

use crate::error::Error;
use crate::help;
use clap::error::ErrorKind;
use clap::{Arg, ArgAction, ArgMatches, Command};
use std::alloc::{AllocError, Global};
use std::rt::Env;
use std::{env, io};

/// The name of the subcommand that serves requests.
pub const SESSION: &str = "session";

/// The name of the subcommand that checks a policy.
pub const CHECK: &str = "check";

/// The name of the subcommand that says where the faults of a policy are.
pub const LOCATE: &str = "locate";

/// The name of its flag, which asks for the optionals that are left out too.
pub const OPTIONALS: &str = "optionals";

/// The name of the subcommand that writes the tables of a policy.
pub const COMPILE: &str = "compile";

/// The name of its option that says to which file.
pub const OUT: &str = "out";

/// The name of the subcommand that asks the tables of a file.
pub const DECIDE: &str = "decide";

/// The name of its option that says which file.
pub const TABLES: &str = "tables";

/// The name of the source of a query.
pub const SOURCE: &str = "SOURCE";

/// The name of its target.
pub const TARGET: &str = "TARGET";

/// The name of its class.
pub const CLASS: &str = "CLASS";

/// The name of the option of a session that says how many decisions its cache may hold.
pub const CACHE: &str = "cache";

/// The name of the files of a subcommand.
pub const FILE: &str = "FILE";

/// The arguments of the program, its own name first. Fails out of memory, or where the arguments are not text.
pub fn words<R: Env + AllocGlobal>(rt: &R) -> Result<Vec<String>, Error<'static>> {
    match env::args(rt) {
        Ok(words) => Ok(words.collect(rt.alloc())?),
        Err(error) if error.kind() == io::ErrorKind::OutOfMemory => Err(Error::NoMemory),
        Err(_) => Err(Error::Arguments),
    }
}

/// What the words ask for. The error is clap's: words that it does not accept, out of memory, or a request for help or the version.
pub fn matches<'a>(alloc: Global, words: &'a [String]) -> Result<ArgMatches<'a>, clap::Error>
    ensures session { (size : Option (List ℕ)) (files : List (List ℕ)) → AskForSession (map string_bytes words.now) size files
        → IfOk result (λ found. AreOf (codes "session") files found × HasSize size found) }
    ensures check { (files : List (List ℕ)) → AskForCheck (map string_bytes words.now) files → IfOk result (AreOf (codes "check") files) }
    ensures compile { (out : List ℕ) (files : List (List ℕ)) → AskForCompile (map string_bytes words.now) out files
        → IfOk result (λ found. AreOf (codes "compile") files found × HasWord (codes "out") out found) }
    ensures decide { (path source target class_name : List ℕ) → AskForDecide (map string_bytes words.now) path source target class_name
        → IfOk result (λ found. AreOf (codes "decide") [] found × HasQuery path source target class_name found) }
    ensures accepts { AskForOne (map string_bytes words.now) → IfErr result (λ error. kind_of error ≡ ErrorKind.OutOfMemory) }
{
    let program = program_command(alloc)?;
    program.try_get_matches_from(words)
}

fn program_command<'a>(alloc: Global) -> Result<Command<'a>, AllocError>
    ensures { IfOk result (λ command. app_of command ≡ program) }
{
    let session = session_command(alloc)?;
    let with_session = Command::new(alloc, "cilhost")
        .version("0.1.0")
        .about(help::PROGRAM)
        .long_about(help::PROGRAM_LONG)
        .after_help(help::EXAMPLE)
        .subcommand_required(true)
        .arg_required_else_help(true)
        .subcommand(session)?;
    let check = check_command(alloc)?;
    let with_check = with_session.subcommand(check)?;
    let locate = locate_command(alloc)?;
    let with_locate = with_check.subcommand(locate)?;
    with_tables(alloc, with_locate)
}

/// The program with the subcommands on files of tables.
fn with_tables<'a>(alloc: Global, before: Command<'a>) -> Result<Command<'a>, AllocError>
    requires { app_of before ≡ program_of_modules }
    ensures { IfOk result (λ command. app_of command ≡ program) }
{
    let compile = compile_command(alloc)?;
    let with_compile = before.subcommand(compile)?;
    let decide = decide_command(alloc)?;
    with_compile.subcommand(decide)
}

fn session_command<'a>(alloc: Global) -> Result<Command<'a>, AllocError>
    ensures { IfOk result (IsCommand session) }
{
    let over_files = Command::new(alloc, SESSION)
        .about(help::SESSION)
        .long_about(help::SESSION_LONG)
        .after_long_help(help::REQUESTS)
        .arg(file_argument(alloc, 0))?;
    over_files.arg(cache_argument(alloc))
}

fn check_command<'a>(alloc: Global) -> Result<Command<'a>, AllocError>
    ensures { IfOk result (IsCommand check) }
{
    Command::new(alloc, CHECK)
        .about(help::CHECK)
        .long_about(help::CHECK_LONG)
        .after_long_help(help::CHECK_MORE)
        .arg(file_argument(alloc, 1))
}

fn locate_command<'a>(alloc: Global) -> Result<Command<'a>, AllocError>
    ensures { IfOk result (IsCommand locate) }
{
    let over_files = Command::new(alloc, LOCATE)
        .about(help::LOCATE)
        .long_about(help::LOCATE_LONG)
        .after_long_help(help::LOCATE_MORE)
        .arg(file_argument(alloc, 1))?;
    over_files.arg(optionals_argument(alloc))
}

fn compile_command<'a>(alloc: Global) -> Result<Command<'a>, AllocError>
    ensures { IfOk result (IsCommand compile) }
{
    let over_files = Command::new(alloc, COMPILE)
        .about(help::COMPILE)
        .long_about(help::COMPILE_LONG)
        .after_long_help(help::COMPILE_MORE)
        .arg(file_argument(alloc, 1))?;
    over_files.arg(out_argument(alloc))
}

fn decide_command<'a>(alloc: Global) -> Result<Command<'a>, AllocError>
    ensures { IfOk result (IsCommand decide) }
{
    let over_tables = Command::new(alloc, DECIDE)
        .about(help::DECIDE)
        .long_about(help::DECIDE_LONG)
        .after_long_help(help::DECIDE_MORE)
        .arg(tables_argument(alloc))?;
    let of_source = over_tables.arg(word_argument(alloc, SOURCE, help::SOURCE))?;
    let onto_target = of_source.arg(word_argument(alloc, TARGET, help::TARGET))?;
    onto_target.arg(word_argument(alloc, CLASS, help::CLASS))
}

fn optionals_argument<'a>(alloc: Global) -> Arg<'a>
    ensures rule { rule_of result ≡ optionals_rule }
    ensures local { result.global ≡ false }
{
    Arg::new(alloc, OPTIONALS)
        .long(OPTIONALS)
        .action(ArgAction::SetTrue)
        .help(help::OPTIONALS)
}

fn cache_argument<'a>(alloc: Global) -> Arg<'a>
    ensures rule { rule_of result ≡ cache_rule }
    ensures local { result.global ≡ false }
{
    Arg::new(alloc, CACHE)
        .long(CACHE)
        .value_name("N")
        .action(ArgAction::Set)
        .help(help::CACHE)
}

fn out_argument<'a>(alloc: Global) -> Arg<'a>
    ensures rule { rule_of result ≡ out_rule }
    ensures local { result.global ≡ false }
{
    Arg::new(alloc, OUT)
        .long(OUT)
        .value_name("T")
        .action(ArgAction::Set)
        .required(true)
        .help(help::OUT)
}

fn tables_argument<'a>(alloc: Global) -> Arg<'a>
    ensures rule { rule_of result ≡ tables_rule }
    ensures local { result.global ≡ false }
{
    Arg::new(alloc, TABLES)
        .long(TABLES)
        .value_name("PATH")
        .action(ArgAction::Set)
        .required(true)
        .help(help::TABLES)
}

/// A word that has to be there.
fn word_argument<'a>(alloc: Global, name: &'a str, about: &'a str) -> Arg<'a>
    ensures rule { rule_of result ≡ word_rule name.now }
    ensures local { result.global ≡ false }
{
    Arg::new(alloc, name)
        .action(ArgAction::Set)
        .required(true)
        .help(about)
}

/// The files of a subcommand, of which there are this many at least.
fn file_argument<'a>(alloc: Global, least: usize) -> Arg<'a>
    ensures rule { rule_of result ≡ file_rule least }
    ensures local { result.global ≡ false }
{
    Arg::new(alloc, FILE)
        .action(ArgAction::Append)
        .num_args(least..)
        .required(least != 0)
        .help(help::FILE)
}
