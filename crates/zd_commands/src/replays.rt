//! The words of zreplay_one and zreplay.

ghost use Rattle.std.specs.Prelude.{◌≡◌, ◌≤◌, ℕ, List, [], codes, map, string_bytes, true, None, Some, IfNone, IfOk, IfSome};
ghost use Rattle.std.specs.Option.{option_copied};
ghost use Rattle.clap.specs.Words.{found_of, rows_of};
ghost use Rattle.zd_commands.specs.FoundReplays.{FindsReplay, MakesReplay, MakesTask};
ghost use Rattle.zd_commands.specs.Founds.{FindsRows, IsRead, IsUnread};
ghost use Rattle.zd_commands.specs.Replays.{AsksAloneReplay, AsksReplay, GivesActors, alone_options, replay_options, replay_places};
ghost use Rattle.zd_commands.specs.Spelling.{Item, is_among};

use crate::readers::number_between;
use crate::reading::{matches, value};
use clap::ArgMatches;
use std::alloc::Global;
use zd_base::Memory;

/// The most requests that a seed may make.
const MOST_REQUESTS: u64 = 4_096;

/// The most actors.
const MOST_ACTORS: u64 = 64;

/// The actors where a command doesn't say how many.
const ACTORS: u32 = 4;

static FLAGS: [&str; 0] = [];

static ALONE_OPTIONS: [&str; 2] = ["make", "count"];

static OPTIONS: [&str; 3] = ["make", "count", "actors"];

static PLACES: [&str; 2] = ["image", "script"];

/// What a command of a replay asks for.
#[derive(Clone, Copy, Debug, PartialEq, Eq)]
pub enum ReplayTask<'a> {
    /// The requests of a script are to be run; `-` is standard input.
    Script {
        /// The word that stands for the script.
        script: &'a str,
    },
    /// The requests that a seed makes are to be run.
    Made {
        /// The seed.
        seed: u64,
        /// How many requests, from 1 to 4,096.
        count: u32,
    },
}

/// A command of zreplay_one.
#[derive(Clone, Copy, Debug, PartialEq, Eq)]
pub struct AloneCommand<'a> {
    /// What it asks for.
    pub task: ReplayTask<'a>,
    /// The word that stands for the image of a disk.
    pub image: &'a str,
}

/// A command of zreplay.
#[derive(Clone, Copy, Debug, PartialEq, Eq)]
pub struct ReplayCommand<'a> {
    /// What it asks for.
    pub task: ReplayTask<'a>,
    /// The word that stands for the image of a disk.
    pub image: &'a str,
    /// How many actors are to run it, from 1 to 64.
    pub actors: u32,
}

/// What was found in words.
#[derive(Clone, Copy)]
struct ReplayFound<'a> {
    seed: Option<&'a str>,
    count: Option<&'a str>,
    image: Option<&'a str>,
    script: Option<&'a str>,
}

/// What clap finds in words of zreplay_one; none where it refuses them.
fn alone_matches<'a>(alloc: Global, words: &'a [String]) -> Result<Option<ArgMatches<'a>>, Memory>
    ensures some { IfOk result (λ found. IfSome found (λ m. IsRead [] alone_options (map string_bytes words.now) 2
        (FindsRows [] alone_options replay_places (rows_of (found_of m))))) }
    ensures none { IfOk result (λ found. IfNone found (IsUnread [] alone_options (map string_bytes words.now) 2)) }
{
    matches(alloc, &FLAGS, &ALONE_OPTIONS, &PLACES, words)
}

/// What clap finds in words of zreplay; none where it refuses them.
fn replay_matches<'a>(alloc: Global, words: &'a [String]) -> Result<Option<ArgMatches<'a>>, Memory>
    ensures some { IfOk result (λ found. IfSome found (λ m. IsRead [] replay_options (map string_bytes words.now) 2
        (FindsRows [] replay_options replay_places (rows_of (found_of m))))) }
    ensures none { IfOk result (λ found. IfNone found (IsUnread [] replay_options (map string_bytes words.now) 2)) }
{
    matches(alloc, &FLAGS, &OPTIONS, &PLACES, words)
}

/// What clap found, by its names.
fn replay_found<'a>(found: &ArgMatches<'a>) -> ReplayFound<'a>
    ensures { (options : List (List ℕ)) (items : List Item) (plain : List (List ℕ))
        → is_among options (codes "make") ≡ true → is_among options (codes "count") ≡ true
        → FindsRows [] options replay_places (rows_of (found_of found.now)) items plain → FindsReplay result items plain }
{
    ReplayFound {
        seed: value(found, "make"),
        count: value(found, "count"),
        image: value(found, "image"),
        script: value(found, "script"),
    }
}

/// The task that runs a script.
fn script_task<'a>(
    script: &'a str,
    seed: Option<&str>,
    count: Option<&str>,
) -> Option<ReplayTask<'a>>
    ensures some { IfSome result (λ task. MakesTask task (Some script.entry.now) (option_copied seed.entry) (option_copied count.entry)) }
    ensures none { IfNone result ((task : ReplayTask)
        → MakesTask task (Some script.entry.now) (option_copied seed.entry) (option_copied count.entry) → ⊥) }
{
    if seed.is_some() || count.is_some() {
        return None;
    }
    Some(ReplayTask::Script { script })
}

/// The task that runs what a seed makes.
fn seed_task<'a>(seed: Option<&str>, count: Option<&str>) -> Option<ReplayTask<'a>>
    ensures some { IfSome result (λ task. MakesTask task None (option_copied seed.entry) (option_copied count.entry)) }
    ensures none { IfNone result ((task : ReplayTask)
        → MakesTask task None (option_copied seed.entry) (option_copied count.entry) → ⊥) }
{
    let Some(seed) = seed else {
        return None;
    };
    let Some(count) = count else {
        return None;
    };
    let Some(seed) = number_between(seed, 0, u64::MAX) else {
        return None;
    };
    let Some(count) = number_between(count, 1, MOST_REQUESTS) else {
        return None;
    };
    Some(ReplayTask::Made {
        seed,
        count: count as u32,
    })
}

/// The task of a replay, and its image.
fn made_replay<'a>(found: &ReplayFound<'a>) -> Option<AloneCommand<'a>>
    ensures some { IfSome result (λ made. MakesReplay found.now made.task made.image.now) }
    ensures none { IfNone result ((task : ReplayTask) (image : List ℕ) → MakesReplay found.now task image → ⊥) }
{
    let Some(image) = found.image else {
        return None;
    };
    let task = match found.script {
        Some(script) => script_task(script, found.seed, found.count),
        None => seed_task(found.seed, found.count),
    };
    match task {
        Some(task) => Some(AloneCommand { task, image }),
        None => None,
    }
}

/// How many actors a word asks for, 4 where there is none.
fn actors_given(word: Option<&str>) -> Option<u32>
    ensures some { IfSome result (GivesActors (option_copied word.entry)) }
    ensures none { IfNone result ((actors : ℕ) → GivesActors (option_copied word.entry) actors → ⊥) }
{
    match word {
        Some(word) => match number_between(word, 1, MOST_ACTORS) {
            Some(number) => Some(number as u32),
            None => None,
        },
        None => Some(ACTORS),
    }
}

/// What words of zreplay_one ask for, and of which image; none where they are no command.
///
/// The options and the plain words stand in any order, and `--option value` and `--option=value` are the same.
/// `Memory` says that no memory was found to read the words, whatever they are.
pub fn alone_command<'a>(
    alloc: Global,
    words: &'a [String],
) -> Result<Option<AloneCommand<'a>>, Memory>
    ensures some { IfOk result (λ made. IfSome made (λ command.
        AsksAloneReplay (map string_bytes words.now) command.task command.image.now)) }
    ensures none { IfOk result (λ made. IfNone made ((task : ReplayTask) (image : List ℕ)
        → AsksAloneReplay (map string_bytes words.now) task image → ⊥)) }
{
    let found = match alone_matches(alloc, words) {
        Ok(Some(found)) => replay_found(&found),
        Ok(None) => return Ok(None),
        Err(Memory) => return Err(Memory),
    };
    Ok(made_replay(&found))
}

/// What words of zreplay ask for, of which image, and by how many actors; none where they are no command.
///
/// `Memory` says that no memory was found to read the words, whatever they are.
pub fn replay_command<'a>(
    alloc: Global,
    words: &'a [String],
) -> Result<Option<ReplayCommand<'a>>, Memory>
    ensures some { IfOk result (λ made. IfSome made (λ command.
        AsksReplay (map string_bytes words.now) command.task command.image.now command.actors)) }
    ensures none { IfOk result (λ made. IfNone made ((task : ReplayTask) (image : List ℕ) (actors : ℕ)
        → AsksReplay (map string_bytes words.now) task image actors → ⊥)) }
{
    let (found, word) = match replay_matches(alloc, words) {
        Ok(Some(found)) => (replay_found(&found), value(&found, "actors")),
        Ok(None) => return Ok(None),
        Err(Memory) => return Err(Memory),
    };
    let Some(actors) = actors_given(word) else {
        return Ok(None);
    };
    match made_replay(&found) {
        Some(AloneCommand { task, image }) => Ok(Some(ReplayCommand {
            task,
            image,
            actors,
        })),
        None => Ok(None),
    }
}
