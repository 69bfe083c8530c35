// The whole call.
ghost use Rattle.std.specs.Prelude.{length};
ghost use Rattle.play.specs.Play.{Plays};
ghost use Rattle.play.specs.Judging.{Judges};

use crate::running::run;
use device::Device;
use survey::{check, count_openings};
use wire::{Refusal, Refused};

// What an accepted call comes to: how many answer bytes and openings there were, and how many clocks passed.
#[derive(Clone, Copy)]
pub struct Totals {
    pub answers: usize,
    pub openings: usize,
    pub clocks: u32,
}

// What a call hands back: the totals and the new device, or why and where it is refused and the device that was given.
#[derive(Clone, Copy)]
pub struct Played {
    pub device: Device,
    pub totals: Result<Totals, Refused>,
}

// Why the call is refused, if it is: a pass over the list finds its own refusal or what room it needs, and a second one, where only the
// openings tell it, whether the row is long enough.
fn judged(list: &[u8], device: Device, answers: usize, openings: usize) -> Result<(), Refused>
    ensures { Judges list.now device answers openings result }
{
    if !device.valid() {
        return Err(Refusal::InvalidDevice.at(0));
    }
    let sums = check(list)?;
    if answers < sums.answers {
        return Err(Refusal::AnswersRoom.at(0));
    }
    // No clock opens twice, and so openings are counted only where there are more clocks than entries.
    if openings < sums.clocks as usize && openings < count_openings(list, device) {
        return Err(Refusal::OpeningsRoom.at(0));
    }
    Ok(())
}

// Plays a list on a device. A refused call writes nothing lent.
pub fn play(list: &[u8], device: Device, answers: &mut [u8], openings: &mut [u32]) -> Played
    ensures { Plays list.now device answers.old openings.old result answers.new openings.new }
{
    let Err(refused) = judged(list, device, answers.len(), openings.len()) else {
        return run(list, device, answers, openings);
    };
    Played {
        device,
        totals: Err(refused),
    }
}
