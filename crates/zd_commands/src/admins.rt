//! The words of dmzadm.

ghost use Rattle.std.specs.Prelude.{ℕ, ◌≡◌, ◌&&◌, not, true, List, map, string_bytes, IfNone, IfOk, IfSome};
ghost use Rattle.std.specs.List.{list_any};
ghost use Rattle.std.specs.Option.{option_copied};
ghost use Rattle.clap.specs.Words.{found_of, rows_of};
ghost use Rattle.zd_commands.specs.Admins.{AsksAdmin, admin_flags, admin_options, admin_places};
ghost use Rattle.zd_commands.specs.Founds.{FindsAdmin, FindsRows, IsBareFlag, IsRead, IsTaskOf, IsUnread, MakesCommand, has_only};
ghost use Rattle.zd_commands.specs.Spelling.{Item};

use crate::readers::{label_given, reserved_given, spelled_label, volume_given};
use crate::reading::{matches, stands, value};
use clap::ArgMatches;
use std::alloc::Global;
use uuid::Uuid;
use zd_base::Memory;

/// The bytes of a label.
pub const LABEL_BYTES: usize = 32;

/// What a command of dmzadm asks for.
#[derive(Clone, Copy, Debug, PartialEq, Eq)]
pub enum AdminTask {
    /// The disk is to become a volume of zeros.
    Format {
        /// The reserved zones.
        reserved: u32,
        /// The identifier of the volume.
        volume: Uuid,
        /// The label, with zeros after it.
        label: [u8; LABEL_BYTES],
    },
    /// Whether both sets of metadata are the same.
    Check,
    /// The disk is to become a volume again, without what is wrong in its tables.
    Repair,
    /// What the volume is, and how much of it is in use.
    Show,
    /// The volume is to have this label.
    Relabel {
        /// The label, with zeros after it.
        label: [u8; LABEL_BYTES],
    },
    /// The volume is to be one of version 2.
    Upgrade {
        /// The identifier that it gets.
        volume: Uuid,
        /// The label that it gets, with zeros after it.
        label: [u8; LABEL_BYTES],
    },
}

/// What was found in words.
#[derive(Clone, Copy)]
struct AdminFound<'a> {
    format: bool,
    check: bool,
    repair: bool,
    relabel: bool,
    status: bool,
    upgrade: bool,
    label: Option<&'a str>,
    seq: Option<&'a str>,
    uuid: Option<&'a str>,
    image: Option<&'a str>,
}

static FLAGS: [&str; 6] = ["format", "check", "repair", "relabel", "status", "upgrade"];

static OPTIONS: [&str; 3] = ["label", "seq", "uuid"];

static PLACES: [&str; 1] = ["image"];

/// What clap finds in words of dmzadm; none where it refuses them.
fn admin_matches<'a>(alloc: Global, words: &'a [String]) -> Result<Option<ArgMatches<'a>>, Memory>
    ensures some { IfOk result (λ found. IfSome found (λ m. IsRead admin_flags admin_options (map string_bytes words.now) 1
        (FindsRows admin_flags admin_options admin_places (rows_of (found_of m))))) }
    ensures none { IfOk result (λ found. IfNone found (IsUnread admin_flags admin_options (map string_bytes words.now) 1)) }
{
    matches(alloc, &FLAGS, &OPTIONS, &PLACES, words)
}

/// What clap found, by its names.
fn admin_found<'a>(found: &ArgMatches<'a>) -> AdminFound<'a>
    ensures { (items : List Item) (plain : _)
        → FindsRows admin_flags admin_options admin_places (rows_of (found_of found.now)) items plain
        → FindsAdmin result items plain }
{
    AdminFound {
        format: stands(found, "format"),
        check: stands(found, "check"),
        repair: stands(found, "repair"),
        relabel: stands(found, "relabel"),
        status: stands(found, "status"),
        upgrade: stands(found, "upgrade"),
        label: value(found, "label"),
        seq: value(found, "seq"),
        uuid: value(found, "uuid"),
        image: value(found, "image"),
    }
}

/// The flags of dmzadm.
#[derive(Clone, Copy, Debug, PartialEq, Eq)]
enum AdminFlag {
    Format,
    Check,
    Repair,
    Relabel,
    Show,
    Upgrade,
}

/// Whether the first stands, and none of the others.
fn is_only(this: bool, others: [bool; 5]) -> bool
    ensures { result ≡ (this && not (list_any (λ other. other) others)) }
{
    let [a, b, c, d, e] = others;
    this && !(a || b || c || d || e)
}

/// The only flag that stands.
fn only_flag(found: &AdminFound<'_>) -> Option<AdminFlag>
    ensures some { IfSome result (λ flag. has_only flag found.now ≡ true) }
    ensures none { IfNone result ((flag : AdminFlag) → has_only flag found.now ≡ true → ⊥) }
{
    let AdminFound {
        format,
        check,
        repair,
        relabel,
        status,
        upgrade,
        ..
    } = *found;
    if is_only(format, [check, repair, relabel, status, upgrade]) {
        return Some(AdminFlag::Format);
    }
    if is_only(check, [format, repair, relabel, status, upgrade]) {
        return Some(AdminFlag::Check);
    }
    if is_only(repair, [format, check, relabel, status, upgrade]) {
        return Some(AdminFlag::Repair);
    }
    if is_only(relabel, [format, check, repair, status, upgrade]) {
        return Some(AdminFlag::Relabel);
    }
    if is_only(status, [format, check, repair, relabel, upgrade]) {
        return Some(AdminFlag::Show);
    }
    if is_only(upgrade, [format, check, repair, relabel, status]) {
        return Some(AdminFlag::Upgrade);
    }
    None
}

/// The task of a flag with which no option stands.
fn bare_task(
    flag: AdminFlag,
    label: Option<&str>,
    seq: Option<&str>,
    uuid: Option<&str>,
) -> Option<AdminTask>
    ensures some { IfSome result (λ task. IsTaskOf flag task (option_copied label.entry) (option_copied seq.entry) (option_copied uuid.entry)) }
    ensures none { IsBareFlag flag → IfNone result ((task : AdminTask)
        → IsTaskOf flag task (option_copied label.entry) (option_copied seq.entry) (option_copied uuid.entry) → ⊥) }
{
    if label.is_some() || seq.is_some() || uuid.is_some() {
        return None;
    }
    match flag {
        AdminFlag::Check => Some(AdminTask::Check),
        AdminFlag::Repair => Some(AdminTask::Repair),
        AdminFlag::Show => Some(AdminTask::Show),
        _ => None,
    }
}

/// The task of `--format`.
fn format_task(label: Option<&str>, seq: Option<&str>, uuid: Option<&str>) -> Option<AdminTask>
    ensures some { IfSome result (λ task.
        IsTaskOf AdminFlag.Format task (option_copied label.entry) (option_copied seq.entry) (option_copied uuid.entry)) }
    ensures none { IfNone result ((task : AdminTask)
        → IsTaskOf AdminFlag.Format task (option_copied label.entry) (option_copied seq.entry) (option_copied uuid.entry) → ⊥) }
{
    let Some(label) = label_given(label) else {
        return None;
    };
    let Some(reserved) = reserved_given(seq) else {
        return None;
    };
    let Some(volume) = volume_given(uuid) else {
        return None;
    };
    Some(AdminTask::Format {
        reserved,
        volume,
        label,
    })
}

/// The task of `--relabel`.
fn relabel_task(label: Option<&str>, seq: Option<&str>, uuid: Option<&str>) -> Option<AdminTask>
    ensures some { IfSome result (λ task.
        IsTaskOf AdminFlag.Relabel task (option_copied label.entry) (option_copied seq.entry) (option_copied uuid.entry)) }
    ensures none { IfNone result ((task : AdminTask)
        → IsTaskOf AdminFlag.Relabel task (option_copied label.entry) (option_copied seq.entry) (option_copied uuid.entry) → ⊥) }
{
    match (label, seq, uuid) {
        (Some(word), None, None) => match spelled_label(word) {
            Some(label) => Some(AdminTask::Relabel { label }),
            None => None,
        },
        _ => None,
    }
}

/// The task of `--upgrade`.
fn upgrade_task(label: Option<&str>, seq: Option<&str>, uuid: Option<&str>) -> Option<AdminTask>
    ensures some { IfSome result (λ task.
        IsTaskOf AdminFlag.Upgrade task (option_copied label.entry) (option_copied seq.entry) (option_copied uuid.entry)) }
    ensures none { IfNone result ((task : AdminTask)
        → IsTaskOf AdminFlag.Upgrade task (option_copied label.entry) (option_copied seq.entry) (option_copied uuid.entry) → ⊥) }
{
    if seq.is_some() {
        return None;
    }
    let Some(label) = label_given(label) else {
        return None;
    };
    let Some(volume) = volume_given(uuid) else {
        return None;
    };
    Some(AdminTask::Upgrade { volume, label })
}

/// The task of a flag with these options.
fn task_of(
    flag: AdminFlag,
    label: Option<&str>,
    seq: Option<&str>,
    uuid: Option<&str>,
) -> Option<AdminTask>
    ensures some { IfSome result (λ task. IsTaskOf flag task (option_copied label.entry) (option_copied seq.entry) (option_copied uuid.entry)) }
    ensures none { IfNone result ((task : AdminTask)
        → IsTaskOf flag task (option_copied label.entry) (option_copied seq.entry) (option_copied uuid.entry) → ⊥) }
{
    match flag {
        AdminFlag::Format => format_task(label, seq, uuid),
        AdminFlag::Relabel => relabel_task(label, seq, uuid),
        AdminFlag::Upgrade => upgrade_task(label, seq, uuid),
        AdminFlag::Check => bare_task(AdminFlag::Check, label, seq, uuid),
        AdminFlag::Repair => bare_task(AdminFlag::Repair, label, seq, uuid),
        AdminFlag::Show => bare_task(AdminFlag::Show, label, seq, uuid),
    }
}

/// A command of dmzadm.
#[derive(Clone, Copy, Debug, PartialEq, Eq)]
pub struct AdminCommand<'a> {
    /// What it asks for.
    pub task: AdminTask,
    /// The word that stands for the image of a disk.
    pub image: &'a str,
}

/// The command that words make, by what was found in them.
fn made_command<'a>(found: &AdminFound<'a>) -> Option<AdminCommand<'a>>
    ensures some { IfSome result (λ made. MakesCommand found.now made.task made.image.now) }
    ensures none { IfNone result ((task : AdminTask) (image : List ℕ) → MakesCommand found.now task image → ⊥) }
{
    let Some(image) = found.image else {
        return None;
    };
    let Some(flag) = only_flag(found) else {
        return None;
    };
    let Some(task) = task_of(flag, found.label, found.seq, found.uuid) else {
        return None;
    };
    Some(AdminCommand { task, image })
}

/// What words of dmzadm ask for, and of which image; none where they are no command.
///
/// The flags, the options and the image stand in any order, and `--option value` and `--option=value` are the same.
/// `Memory` says that no memory was found to read the words, whatever they are.
pub fn admin_command<'a>(
    alloc: Global,
    words: &'a [String],
) -> Result<Option<AdminCommand<'a>>, Memory>
    ensures some { IfOk result (λ made. IfSome made (λ command.
        AsksAdmin (map string_bytes words.now) command.task command.image.now)) }
    ensures none { IfOk result (λ made. IfNone made ((task : AdminTask) (image : List ℕ)
        → AsksAdmin (map string_bytes words.now) task image → ⊥)) }
{
    let found = match admin_matches(alloc, words) {
        Ok(Some(found)) => admin_found(&found),
        Ok(None) => return Ok(None),
        Err(Memory) => return Err(Memory),
    };
    Ok(made_command(&found))
}
