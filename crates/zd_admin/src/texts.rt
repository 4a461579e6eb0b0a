//! The outputs of runs whose text isn't fixed.

ghost use Rattle.std.specs.Prelude.{◌≡◌, ◌++◌, IfOk, OnOk, string_bytes};
ghost use Rattle.zd_model.specs.Report.{run_output};
ghost use Rattle.zd_model.specs.Text.{numeral};
ghost use Rattle.zd_admin.specs.Output.{chunks_line, differs_text, formatted_text, free_line, head_lines, id_line, label_line, number_after, number_line, refused_text, repaired_text, shown_text};

use crate::outcome::Difference;
use crate::volume::VolumeStatus;
use std::alloc::{AllocError, Global};
use uuid::Uuid;
use zd_base::Memory;
use zd_model::{NoVolume, Super};
use zd_plain::History;
use zd_repair::Repaired;
use zd_report::output_text;

/// Appends a number, without leading zeros.
fn add_number(text: &mut String, n: u64) -> Result<(), AllocError>
    ensures { OnOk result (string_bytes text.new ≡ string_bytes text.old ++ numeral n) }
{
    write!(text, "{n}")
}

/// Appends a word, and a number behind it.
#[tactic(auto, unfolding(crate::specs::Output::number_after))]
fn add_number_after(text: &mut String, word: &str, n: u64) -> Result<(), AllocError>
    ensures { OnOk result (string_bytes text.new ≡ string_bytes text.old ++ number_after word.now n) }
{
    text.push_str(word)?;
    add_number(text, n)
}

/// Appends a line of a word and a number.
fn add_number_line(text: &mut String, word: &str, n: u64) -> Result<(), AllocError>
    ensures { OnOk result (string_bytes text.new ≡ string_bytes text.old ++ number_line word.now n) }
{
    add_number_after(text, word, n)?;
    text.push_str("\n")
}

/// Appends a line of a word and an identifier.
#[tactic(auto, unfolding(crate::specs::Output::id_line))]
fn add_id_line(text: &mut String, word: &str, id: &Uuid) -> Result<(), AllocError>
    ensures { OnOk result (string_bytes text.new ≡ string_bytes text.old ++ id_line word.now id.now) }
{
    let mut buffer = Uuid::encode_buffer();
    text.push_str(word)?;
    text.push_str(id.hyphenated().encode_lower(&mut buffer))?;
    text.push_str("\n")
}

/// Appends the line of a label.
#[tactic(auto, unfolding(crate::specs::Output::label_line))]
fn add_label_line(alloc: Global, text: &mut String, label: &[u8]) -> Result<(), AllocError>
    ensures { OnOk result (string_bytes text.new ≡ string_bytes text.old ++ label_line label.now) }
{
    let digits = hex::encode(alloc, label)?;
    text.push_str("label ")?;
    text.push_str(&digits)?;
    text.push_str("\n")?;
    Ok(())
}

/// Appends the lines of a head.
#[tactic(auto, unfolding(crate::specs::Output::head_lines))]
fn add_head(alloc: Global, text: &mut String, head: &Super) -> Result<(), AllocError>
    ensures { OnOk result (string_bytes text.new ≡ string_bytes text.old ++ head_lines head.now) }
{
    add_number_line(text, "version ", u64::from(head.version))?;
    add_label_line(alloc, text, &head.label)?;
    add_id_line(text, "volume ", &head.volume)?;
    add_id_line(text, "device ", &head.device)?;
    add_number_line(text, "generation ", head.generation)
}

/// Appends the line of the chunks.
#[tactic(auto, unfolding(crate::specs::Output::chunks_line))]
fn add_chunks(text: &mut String, volume: &VolumeStatus) -> Result<(), AllocError>
    ensures { OnOk result (string_bytes text.new ≡ string_bytes text.old ++ chunks_line volume.now) }
{
    add_number_after(text, "chunks ", u64::from(volume.head.layout.chunks))?;
    add_number_after(text, " mapped ", u64::from(volume.mapped))?;
    add_number_after(text, " buffered ", u64::from(volume.buffered))?;
    text.push_str("\n")
}

/// Appends the line of the free zones.
#[tactic(auto, unfolding(crate::specs::Output::free_line))]
fn add_free(text: &mut String, volume: &VolumeStatus) -> Result<(), AllocError>
    ensures { OnOk result (string_bytes text.new ≡ string_bytes text.old ++ free_line volume.now) }
{
    add_number_after(text, "free ", u64::from(volume.free_conventional))?;
    add_number_after(text, " conventional ", u64::from(volume.free_sequential))?;
    text.push_str(" sequential\n")?;
    Ok(())
}

/// The output of a run that formatted a disk.
pub fn formatted_text(alloc: Global, chunks: u32, zone_blocks: u32) -> Result<Vec<u8>, AllocError>
    ensures { IfOk result (λ text. text.items ≡ formatted_text chunks zone_blocks) }
{
    let mut text = String::new(alloc);
    add_number_after(&mut text, "formatted ", u64::from(chunks))?;
    add_number_after(&mut text, " chunks of ", u64::from(zone_blocks))?;
    text.push_str(" blocks\nend 0 ok\n")?;
    Ok(text.into_bytes())
}

/// The output of a run that repaired a disk.
pub fn repaired_text(alloc: Global, dropped: &Repaired) -> Result<Vec<u8>, AllocError>
    ensures { IfOk result (λ text. text.items ≡ repaired_text dropped.now) }
{
    let mut text = String::new(alloc);
    add_number_after(&mut text, "repaired ", u64::from(dropped.entries))?;
    add_number_after(&mut text, " entries ", dropped.bits)?;
    text.push_str(" bits\nend 0 ok\n")?;
    Ok(text.into_bytes())
}

/// The output of a run that shows a volume.
pub fn shown_text(alloc: Global, volume: &VolumeStatus) -> Result<Vec<u8>, AllocError>
    ensures { IfOk result (λ text. text.items ≡ shown_text volume.now) }
{
    let mut text = String::new(alloc);
    add_head(alloc, &mut text, &volume.head)?;
    add_chunks(&mut text, volume)?;
    add_free(&mut text, volume)?;
    text.push_str("end 0 ok\n")?;
    Ok(text.into_bytes())
}

/// The output of a run that found what differs.
pub fn differs_text(alloc: Global, difference: Difference) -> Result<Vec<u8>, AllocError>
    ensures { IfOk result (λ text. text.items ≡ differs_text difference) }
{
    let (word, number) = match difference {
        Difference::Super { set } => ("end 9 differs super ", set),
        Difference::Block { block } => ("end 9 differs block ", block),
    };
    let mut text = String::new(alloc);
    add_number_line(&mut text, word, u64::from(number))?;
    Ok(text.into_bytes())
}

/// The output of a run whose disk is no volume.
#[tactic(auto, unfolding(zd_model::specs::Report::run_output))]
pub fn refused_text(alloc: Global, kind: NoVolume) -> Result<Vec<u8>, Memory>
    ensures { IfOk result (λ text. text.items ≡ refused_text kind) }
{
    let history = History::new(alloc);
    output_text(alloc, &history, &zd_model::Outcome::NoVolume(kind))
}
