//! The words of the command line.
ghost use Rattle.std.specs.Prelude.{◌≡◌, [], ◌∷◌, IfOk, map, option_map};
ghost use Rattle.synth_core.specs.declared.settings.Choice.TheVariants.{Positive as positive};
ghost use Rattle.synth_core.specs.declared.settings.SourceKind.TheVariants.{Pla as pla};
ghost use Rattle.ae_base.specs.Form.{form_of};
ghost use Rattle.ae_base.specs.declared.form.Form.TheVariants.{Reddy as reddy};
ghost use Rattle.synth_cmd.specs.Asked as spec;
ghost use Rattle.synth_cmd.specs.Asked.{asked};
ghost use Rattle.synth_cmd.specs.Words.{IsFit, command_of, said_of, source_of};

use crate::command_line::{Said, parse, said_by};
use ae_base::{Form, Memory, Polarity, SOURCE_LINES, are_digits, read_bits};
use grading::Mode;
use std::alloc::Global;
use synth_core::{Choice, Settings, SourceKind};

/// The most digits of the number of a demo.
const NUMBER_DIGITS: usize = 10;

/// Where a source comes from.
#[derive(Clone, Copy)]
pub enum Origin<'a> {
    /// A file of this name.
    File(&'a str),
    /// The demo of this number.
    Demo(u32),
}

/// Where the source of a synthesis comes from, and the names of the files that its network and its vectors are written to.
#[derive(Clone, Copy)]
pub struct FileNames<'a> {
    pub source: Origin<'a>,
    pub net: &'a str,
    pub vectors: &'a str,
}

/// The names of the files of a pair: a netlist and its vectors.
#[derive(Clone, Copy)]
pub struct PairNames<'a> {
    pub net: &'a str,
    pub vectors: &'a str,
}

/// A command with what it asks for and the names of its files.
#[derive(Clone, Copy)]
pub enum Command<'a> {
    Refused,
    Synth {
        settings: Settings,
        names: FileNames<'a>,
    },
    Grade {
        mode: Mode,
        names: PairNames<'a>,
    },
}

/// The kind of a source's text that a word names.
fn kind_of(word: &str) -> Option<SourceKind>
    ensures { result ≡ spec.kind_of word.now }
{
    match word {
        "pla" => Some(SourceKind::Pla),
        "blif" => Some(SourceKind::Blif),
        _ => None,
    }
}

/// The polarity that a word of digits tells: 1 where the literal of the input is plain.
fn bits_of(word: &[u8]) -> Option<Polarity>
    ensures { result ≡ spec.bits_of word.now }
{
    let count = word.len();
    if count == 0 || count > SOURCE_LINES as usize {
        return None;
    }
    let n = count as u32;
    match read_bits(n, word) {
        Some(plain) => Some(Polarity { n, plain }),
        None => None,
    }
}

/// The choice of a polarity that a word names.
fn choice_of(word: &str) -> Option<Choice>
    ensures { result ≡ spec.choice_of word.now }
{
    match word {
        "positive" => Some(Choice::Positive),
        "search" => Some(Choice::Search),
        _ => bits_of(word.as_bytes()).map(Choice::Given),
    }
}

/// Whether a word has 1 to `NUMBER_DIGITS` digits, and nothing else.
fn has_digits(word: &[u8]) -> bool
    ensures { result ≡ spec.has_digits word.now }
{
    let count = word.len();
    0 < count && count <= NUMBER_DIGITS && are_digits(word)
}

/// The number of a demo that a word tells.
fn number_of(word: &str) -> Option<u32>
    ensures { result ≡ spec.number_of word.now }
{
    if !has_digits(word.as_bytes()) {
        return None;
    }
    match word.parse::<u32>() {
        Ok(number) if number < 1 << 31 => Some(number),
        _ => None,
    }
}

/// What `--kind` asks for.
fn kind_in(said: &Said<'_, '_>) -> Option<SourceKind>
    ensures { result ≡ spec.value_or spec.kind_of pla (option_map (λ w. w.now) said.now.kind) }
{
    match said.kind {
        Some(word) => kind_of(word),
        None => Some(SourceKind::Pla),
    }
}

/// What `--form` asks for.
fn form_in(said: &Said<'_, '_>) -> Option<Form>
    ensures { result ≡ spec.value_or form_of reddy (option_map (λ w. w.now) said.now.form) }
{
    match said.form {
        Some(word) => Form::of_word(word.as_bytes()),
        None => Some(Form::Reddy),
    }
}

/// What `--polarity` asks for.
fn polarity_in(said: &Said<'_, '_>) -> Option<Choice>
    ensures { result ≡ spec.value_or spec.choice_of positive (option_map (λ w. w.now) said.now.polarity) }
{
    match said.polarity {
        Some(word) => choice_of(word),
        None => Some(Choice::Positive),
    }
}

/// The settings that the options ask for, each or none of them given.
fn settings_of(said: &Said<'_, '_>) -> Option<Settings>
    ensures { result ≡ spec.settings_of (said_of said.now) }
{
    let kind = kind_in(said)?;
    let form = form_in(said)?;
    let polarity = polarity_in(said)?;
    Some(Settings {
        kind,
        form,
        polarity,
    })
}

/// The demo of the number that a word tells.
fn demo_of<'a>(word: &str) -> Option<Origin<'a>>
    ensures { option_map source_of result ≡ option_map (λ number. spec.Origin.Demo number) (spec.number_of word.now) }
{
    match number_of(word) {
        Some(number) => Some(Origin::Demo(number)),
        None => None,
    }
}

/// Where the source of a synthesis comes from: a file whose name differs from the others, or a demo.
fn origin_of<'a>(
    said: &Said<'_, 'a>,
    source: &'a str,
    net: &'a str,
    vectors: &'a str,
) -> Option<Origin<'a>>
    ensures { option_map source_of result ≡ spec.origin_of (said_of said.now) source.now net.now vectors.now }
{
    match said.mode {
        "synth" if source != net && source != vectors => Some(Origin::File(source)),
        "demo" if said.kind.is_none() => demo_of(source),
        _ => None,
    }
}

/// `synth` or `demo` with its three names.
fn synth_of<'a>(said: &Said<'_, 'a>, source: &'a str, net: &'a str, vectors: &'a str) -> Command<'a>
    ensures asked { command_of result ≡ spec.command_by (said_of said.now) (source.now ∷ net.now ∷ vectors.now ∷ []) }
    ensures fit { IsFit (command_of result) }
{
    if net == vectors {
        return Command::Refused;
    }
    match (settings_of(said), origin_of(said, source, net, vectors)) {
        (Some(settings), Some(source)) => Command::Synth {
            settings,
            names: FileNames {
                source,
                net,
                vectors,
            },
        },
        _ => Command::Refused,
    }
}

/// Whether an option is given.
fn has_options(said: &Said<'_, '_>) -> bool
    ensures { result ≡ spec.has_options (said_of said.now) }
{
    said.kind.is_some() || said.form.is_some() || said.polarity.is_some()
}

/// `grade` or `check` with its two names.
fn pair_of<'a>(said: &Said<'_, 'a>, net: &'a str, vectors: &'a str) -> Command<'a>
    ensures asked { command_of result ≡ spec.command_by (said_of said.now) (net.now ∷ vectors.now ∷ []) }
    ensures fit { IsFit (command_of result) }
{
    if net == vectors || has_options(said) {
        return Command::Refused;
    }
    let names = PairNames { net, vectors };
    match said.mode {
        "grade" => Command::Grade {
            mode: Mode::Grade,
            names,
        },
        "check" => Command::Grade {
            mode: Mode::Check,
            names,
        },
        _ => Command::Refused,
    }
}

/// The command that the words ask for where `clap` takes them.
fn command_by<'a>(said: &Said<'_, 'a>) -> Command<'a>
    ensures asked { command_of result ≡ spec.command_by (said_of said.now) (said_of said.now).names }
    ensures fit { IsFit (command_of result) }
{
    match said.names {
        Some([net, vectors]) => pair_of(said, *net, *vectors),
        Some([source, net, vectors]) => synth_of(said, *source, *net, *vectors),
        _ => Command::Refused,
    }
}

/// What the words ask for, the program's own name left out.
pub fn read_command<'a>(alloc: Global, words: &'a [String]) -> Result<Command<'a>, Memory>
    ensures asked { IfOk result (λ command. command_of command ≡ asked words.entry.now) }
    ensures fit { IfOk result (λ command. IsFit (command_of command)) }
{
    match parse(alloc, words)? {
        Some(matches) => Ok(command_by(&said_by(&matches))),
        None => Ok(Command::Refused),
    }
}
