//! A recording played whole.

ghost use Rattle.std.specs.Prelude.{◌≡◌, ℕ, false, List, length, Some, is_ok, IfOk, MatchResult};
ghost use Rattle.std.specs.Option.{option_map};
ghost use Rattle.std.specs.Result.{result_err};
ghost use Rattle.rack.specs.Files.{file_records};
ghost use Rattle.recording.specs.Recordings.{events_of, CutAnywhere};
ghost use Rattle.stream.specs.Interruptions.{CanInterrupt};
ghost use Rattle.player.specs.Playing.{play_refusal, fault_seen, play_fault, Played, output_behind};
ghost use Rattle.player.specs.Sections.{AllPrintedSo};
ghost use Rattle.player.specs.declared.playing.PlayFault.TheVariants.{File, SetUp};

use crate::driving::Player;
use crate::progress::Progress;
use panel::{Driver, Panel, work, work_on};
use rack::FileFault;
use recording::Format;
use refusals::Refusal;
use shelf::Shelf;
use std::alloc::Global;
use std::io::{Read, Write};
use stream::Interruption;

// The most room that an event asks for.
const MAX_ROOM: usize = 255;

/// Why a recording is not played.
#[derive(Clone, Copy, PartialEq, Debug)]
pub enum PlayFault {
    /// The record file, with the first record's fault whole.
    File(FileFault),
    /// The set-up.
    SetUp(Refusal),
}

impl PlayFault {
    /// How it is told. A method and no `From`: a fault says more than its refusal.
    pub fn refusal(self) -> Refusal
        ensures { result ≡ play_refusal self }
    {
        match self {
            PlayFault::File(fault) => fault.refusal(),
            PlayFault::SetUp(refusal) => refusal,
        }
    }
}

impl From<FileFault> for PlayFault {
    ghost from_gives = { λ e r. r ≡ File e };

    fn from(e: FileFault) -> PlayFault {
        PlayFault::File(e)
    }
}

impl From<Refusal> for PlayFault {
    ghost from_gives = { λ e r. r ≡ SetUp e };

    fn from(e: Refusal) -> PlayFault {
        PlayFault::SetUp(e)
    }
}

/// Plays a recording: a driver works a panel over the shelf of a record file, under a supply in mL/min, until it ends the run. The
/// panel goes on from there.
pub fn play<D: Driver>(
    file: &[u8],
    supply: u32,
    driver: &mut D,
    buffer: &mut [u8],
) -> Result<Panel<Shelf>, PlayFault>
    ensures fault { option_map fault_seen (result_err result) ≡ play_fault supply file.now }
    ensures played { IfOk result
        (Played D.Driver driver.old driver.new buffer.old buffer.new
        supply (file_records file.now)) }
    ensures unasked { is_ok result ≡ false → driver.new ≡ driver.old }
    ensures unwritten { is_ok result ≡ false → buffer.new ≡ buffer.old }
{
    let mut shelf = Shelf::blank();
    shelf.fill(file)?;
    let mut panel = Panel::new(shelf);
    work(&mut panel, supply, driver, buffer)?;
    Ok(panel)
}

/// Plays a recording whole, and gives the writer back: it prints the lines of the events, or the one line of a refused record file
/// or set-up. However the reader cuts the recording into blocks, the lines are those of the whole. It is never told as endless if it
/// has fewer than 2^64 - 1 events.
pub fn run<R: Read + Drop, W: Write + Drop>(
    heap: Global,
    format: Format,
    file: &[u8],
    supply: u32,
    input: R,
    output: W,
) -> Result<W, Interruption>
    ensures printed { (bytes out : List ℕ) → R.Read.remaining input ≡ Some bytes
        → W.Write.contents output ≡ Some out → MatchResult result
        (λ w. W.Write.contents w ≡ output_behind out format supply file.now bytes)
        (CanInterrupt (length (events_of bytes))) }
    ensures promised { AllPrintedSo format supply file.now }
    ensures cuts { CutAnywhere }
{
    let mut player = Player::new(heap, format, input, output);
    let mut buffer = [0; MAX_ROOM];
    let mut panel = match play(file, supply, &mut player, &mut buffer) {
        Ok(panel) => panel,
        Err(fault) => return player.refuse(fault.refusal()),
    };
    for _ in 0..u64::MAX {
        match player.progress {
            Progress::Waiting(pause) => player.attend(&mut panel, pause)?,
            Progress::Ended => return player.finish(),
            Progress::Interrupted(interruption) => return Err(interruption),
            // As many calls were made as can be counted.
            Progress::Going => return Err(Interruption::Endless),
        }
        work_on(&mut panel, &mut player, &mut buffer);
    }
    Err(Interruption::Endless)
}
