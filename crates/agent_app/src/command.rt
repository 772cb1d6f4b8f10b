ghost use Rattle.std.specs.Prelude.{◌≡◌, ℕ, ◌≤◌, ◌<◌, ◌^◌, true, false, Some, Ok, IfSome, IfOk, map, length};
ghost use Rattle.std.specs.List.{list_any};
ghost use Rattle.std.specs.Option.{option_and_then};
ghost use Rattle.clap.specs.Words.{found_of, rows_of, subcommand_rows_of};
ghost use Rattle.fixed_num.specs.UnitsText.{is_numeral};
ghost use Rattle.tier_settings.specs.Limits.{InLimits};
ghost use Rattle.agent_app.specs.declared.command.Plan.{Plan as APlan};
ghost use Rattle.agent_app.specs.Command.{addressed, collect_of, command_of, default_plan, form_named, form_of, has_leading_zero, is_option, is_quota, number_of, plan_of, plan_with, quota_of, settings_for, up_to, IsCollector};
ghost use Rattle.agent_app.specs.Forms.{addressed_in, collect_in, command_in, form_in, plan_in};

use crate::forms::parse;
use clap::ArgMatches;
use clap::error::ErrorKind;
use fixed_num::{Text, WordsList};
use history::UPDATE_EVERY_LIMIT;
use std::alloc::{AllocError, Global};
use tier_settings::{MOST_EXTENTS, MOST_ITEMS};

/// How often a collector may be started at most.
pub const STARTS_LIMIT: u32 = 1_000;

/// In which form the log of alarms is told.
#[derive(Clone, Copy, Debug, PartialEq, Eq)]
pub enum Form {
    /// DROPPED and how many events are not shown, and then a line for each event that is.
    Text,
    /// One line of JSON.
    Json,
}

/// The settings of a database that is to be made.
#[derive(Clone, Copy, Debug, PartialEq, Eq)]
pub struct Plan {
    /// The number of the database.
    pub id: u64,
    /// The items and the segments of each tier, that of the points first.
    pub quotas: [(u32, u32); 3],
}

/// What the words of a command line ask for.
#[derive(Clone, Copy, Debug, PartialEq, Eq)]
pub enum Command {
    /// Runs a program, the words behind the first three, as a collector, and stores the beats of its text.
    Collect {
        /// How many seconds lie between its beats, 1 to `UPDATE_EVERY_LIMIT`.
        every: u32,
        /// How often it is started at most, 1 to `STARTS_LIMIT`.
        starts: u32,
    },
    /// Tells the points of the input's text.
    Convert,
    /// Stores the input as the configuration of alarms.
    Health,
    /// Tells the log of alarms in this form.
    Log(Form),
    /// Makes a database with these settings.
    New(Plan),
    /// Answers the question that the words behind the first ask.
    Query,
    /// Stores the copies that a child sends, which comes to the address behind the first word.
    Receive,
    /// Stores the beats of the input's text.
    Run,
    /// Sends copies of the beats to the parent at the address behind the first word.
    Send,
}

impl Command {
    /// The command that the words give, or `None` where they are in no form. The error is out of
    /// memory.
    pub fn read(alloc: Global, words: &WordsList) -> Result<Option<Command>, AllocError>
        ensures command { IfOk result (λ command. command ≡ command_of words.now) }
        ensures limits { (plan : APlan) → result ≡ Ok (Some (Command.New plan))
            → InLimits (settings_for plan) }
        ensures collector { (every starts : ℕ)
            → result ≡ Ok (Some (Command.Collect every starts))
            → IsCollector every starts words.now }
    {
        // A word that begins with `-` is in no form, and has a meaning of its own to `clap`.
        if has_option(words.as_slice()) {
            return Ok(None);
        }
        let texts = texts_of(alloc, words.as_slice())?;
        read_plain(alloc, texts.as_slice())
    }
}

/// The texts of the words.
fn texts_of(alloc: Global, words: &[Text]) -> Result<Vec<&str>, AllocError>
    ensures { IfOk result (λ texts. map (λ text. text.now) texts.items ≡ words.now) }
{
    let mut texts = Vec::new(alloc);
    for word in words {
        texts.push(word.as_str())?;
    }
    Ok(texts)
}

/// The command of words that begin with no `-`.
fn read_plain<'a>(alloc: Global, words: &'a [&'a str]) -> Result<Option<Command>, AllocError>
    requires plain { list_any is_option (map (λ word. word.now) words.now) ≡ false }
    requires count { length words.now < 2 ^ 64 }
    ensures command { IfOk result (λ command.
        command ≡ command_of (map (λ word. word.now) words.now)) }
    ensures limits { (plan : APlan) → result ≡ Ok (Some (Command.New plan))
        → InLimits (settings_for plan) }
{
    match parse(alloc, words) {
        Ok(matches) => Ok(command_in(&matches)),
        Err(error) => match error.kind() {
            ErrorKind::OutOfMemory => Err(AllocError),
            _ => Ok(None),
        },
    }
}

/// The command that `clap` found.
fn command_in(matches: &ArgMatches<'_>) -> Option<Command>
    ensures command { result ≡ command_in (subcommand_rows_of matches.now) }
    ensures limits { (plan : APlan) → result ≡ Some (Command.New plan)
        → InLimits (settings_for plan) }
{
    let (name, found) = matches.subcommand()?;
    match name {
        "collect" => collect_in(found),
        "convert" => Some(Command::Convert),
        "health" => Some(Command::Health),
        "log" => Some(Command::Log(form_in(found)?)),
        "new" => Some(Command::New(plan_in(found)?)),
        "query" => Some(Command::Query),
        "receive" => addressed_in(Command::Receive, found),
        "run" => Some(Command::Run),
        "send" => addressed_in(Command::Send, found),
        _ => None,
    }
}

/// The command, where the words behind its name are an address.
fn addressed_in(command: Command, found: &ArgMatches<'_>) -> Option<Command>
    ensures { result ≡ addressed_in command (rows_of (found_of found.now)) }
{
    read_addressed(command, found.get_raw("words")?)
}

/// The command, where one word stands behind it.
fn read_addressed(command: Command, words: &[&str]) -> Option<Command>
    ensures { result ≡ addressed command (map (λ word. word.now) words.now) }
{
    match words {
        [_address] => Some(command),
        _ => None,
    }
}

/// The collector that the words behind `collect` give.
fn collect_in(found: &ArgMatches<'_>) -> Option<Command>
    ensures { result ≡ collect_in (rows_of (found_of found.now)) }
{
    read_collect(found.get_raw("words")?)
}

/// The seconds between beats and the number of starts, where a program stands behind them.
fn read_collect(words: &[&str]) -> Option<Command>
    ensures { result ≡ collect_of (map (λ word. word.now) words.now) }
{
    match words {
        [every, starts, _program, ..] => Some(Command::Collect {
            every: read_up_to(UPDATE_EVERY_LIMIT, every)?,
            starts: read_up_to(STARTS_LIMIT, starts)?,
        }),
        _ => None,
    }
}

/// The form that the words behind `log` give.
fn form_in(found: &ArgMatches<'_>) -> Option<Form>
    ensures { result ≡ form_in (rows_of (found_of found.now)) }
{
    read_form(found.get_raw("words")?)
}

/// The form of the log that the words ask for, where they are one.
fn read_form(words: &[&str]) -> Option<Form>
    ensures { result ≡ form_of (map (λ word. word.now) words.now) }
{
    match words {
        [word] => form_named(word),
        _ => None,
    }
}

/// The form of the log that a word asks for.
fn form_named(word: &str) -> Option<Form>
    ensures { result ≡ form_named word.now }
{
    match word {
        "text" => Some(Form::Text),
        "json" => Some(Form::Json),
        _ => None,
    }
}

/// The settings that the words behind `new` give.
fn plan_in(found: &ArgMatches<'_>) -> Option<Plan>
    ensures plan { result ≡ plan_in (rows_of (found_of found.now)) }
    ensures limits { IfSome result (λ plan. InLimits (settings_for plan)) }
{
    read_plan(found.get_raw("words")?)
}

/// Whether one of the words begins with `-`.
fn has_option(words: &[Text]) -> bool
    ensures { result ≡ list_any is_option words.now }
{
    words.iter().any(|word| is_option(word.as_str()))
}

/// Whether a word begins with `-`.
fn is_option(word: &str) -> bool
    ensures { result ≡ is_option word.now }
{
    match word.as_bytes() {
        [first, ..] => *first == b'-',
        _ => false,
    }
}

/// What a database is to keep: an id, and then nothing or the items and the segments of each tier.
fn read_plan(words: &[&str]) -> Option<Plan>
    ensures plan { result ≡ plan_of (map (λ word. word.now) words.now) }
    ensures limits { IfSome result (λ plan. InLimits (settings_for plan)) }
{
    match words {
        [id] => Some(default_plan(read_number(id)?)),
        [id, items0, extents0, items1, extents1, items2, extents2] => plan_with(
            read_number(id),
            read_quota(items0, extents0),
            read_quota(items1, extents1),
            read_quota(items2, extents2),
        ),
        _ => None,
    }
}

/// The settings of these parts, where all of them are there.
fn plan_with(
    id: Option<u64>,
    quota0: Option<(u32, u32)>,
    quota1: Option<(u32, u32)>,
    quota2: Option<(u32, u32)>,
) -> Option<Plan>
    requires quota0 { IfSome quota0 (λ quota. is_quota quota ≡ true) }
    requires quota1 { IfSome quota1 (λ quota. is_quota quota ≡ true) }
    requires quota2 { IfSome quota2 (λ quota. is_quota quota ≡ true) }
    ensures plan { result ≡ plan_with id quota0 quota1 quota2 }
    ensures limits { IfSome result (λ plan. InLimits (settings_for plan)) }
{
    Some(Plan {
        id: id?,
        quotas: [quota0?, quota1?, quota2?],
    })
}

/// What a database keeps where nothing is said of it.
fn default_plan(id: u64) -> Plan
    ensures plan { result ≡ default_plan id }
    ensures limits { InLimits (settings_for result) }
{
    Plan {
        id,
        quotas: [(262_144, 256), (65_536, 64), (65_536, 16)],
    }
}

/// How much a tier is to keep: its items and its segments.
fn read_quota(items: &str, extents: &str) -> Option<(u32, u32)>
    ensures quota { result ≡ quota_of items.now extents.now }
    ensures limits { IfSome result (λ quota. is_quota quota ≡ true) }
{
    Some((
        read_up_to(MOST_ITEMS, items)?,
        read_up_to(MOST_EXTENTS, extents)?,
    ))
}

/// The number that a word says, where it is not 0 and at most so large.
fn read_up_to(most: u32, word: &str) -> Option<u32>
    ensures number { result ≡ option_and_then (up_to most) (number_of word.now) }
    ensures least { IfSome result (λ n. 1 ≤ n) }
    ensures most { IfSome result (λ n. n ≤ most) }
{
    let number = read_number(word)?;
    if number >= 1 && number <= u64::from(most) {
        Some(number as u32)
    } else {
        None
    }
}

/// Whether a word is decimal digits.
fn is_numeral(word: &str) -> bool
    ensures { result ≡ is_numeral word.now }
{
    !word.is_empty() && word.as_bytes().iter().all(|byte| byte.is_ascii_digit())
}

/// Whether a 0 stands in front of another character.
fn has_leading_zero(word: &str) -> bool
    ensures { result ≡ has_leading_zero word.now }
{
    match word.as_bytes() {
        [first, _, ..] => *first == b'0',
        _ => false,
    }
}

/// The number that a word says by decimal digits, without a sign and without a 0 in front.
fn read_number(word: &str) -> Option<u64>
    ensures { result ≡ number_of word.now }
{
    if !is_numeral(word) || has_leading_zero(word) {
        return None;
    }
    match word.parse::<u64>() {
        Ok(number) => Some(number),
        Err(_) => None,
    }
}
