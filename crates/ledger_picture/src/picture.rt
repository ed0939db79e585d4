//! A ledger, as a picture.

ghost use Rattle.std.specs.Prelude.{◌≡◌, ◌↔◌, ◌≤◌, IfOk, IfSome, None};
ghost use Rattle.ledger_picture.specs.Front.{IsPicture};
ghost use Rattle.ledger_picture.specs.Numbers.{IsNumbersOf};

use crate::columns::Columns;
use crate::frame::size_of;
use crate::front::whole;
use crate::numbers::Numbers;
use crate::painter::Painter;
use crate::survey::Survey;
use crate::text::put;
use adlb_unit::{Config, NoMemory};
use ledger_checker::{Machine, Watch, first_stop};
use ledger_rules::{Complaint, first_complaint};
use packed_ledger::Ledger;
use std::alloc::Global;

/// A ledger as a picture: its numbers, and the text of an SVG.
#[derive(Drop)]
pub struct Picture {
    pub numbers: Numbers,
    pub text: Vec<u8>,
}

/// Draws the ledger, up to its first entry that is no step, in at most 4,000 columns. The picture's numbers are those of the ledger
/// (`IsNumbersOf`), and its text tells them and names a lane for each rank and each server (`IsPicture`). Its only error is `NoMemory`.
pub fn draw(alloc: Global, config: &Config, ledger: &Ledger) -> Result<Picture, NoMemory>
    ensures numbers { IfOk result (λ p. IsNumbersOf config.now ledger.now p.numbers) }
    ensures text { IfOk result (λ p. IsPicture p.numbers p.text.items) }
{
    let illegal = first_complaint(alloc, config, ledger)?;
    let numbers = Numbers::of(config, ledger, &illegal);
    let columns = Columns::new(numbers);
    let size = size_of(alloc, numbers, &columns, config.limit)?;
    let rest = paint(alloc, config, ledger, numbers, illegal)?;
    let text = whole(alloc, numbers, &size, &rest)?;
    Ok(Picture { numbers, text })
}

// What a picture has after the names of its lanes. Its only error is `NoMemory`.
fn paint(
    alloc: Global,
    config: &Config,
    ledger: &Ledger,
    numbers: Numbers,
    illegal: Option<Complaint>,
) -> Result<Vec<u8>, NoMemory> {
    let mut survey = Survey::new(alloc, numbers.servers)?;
    follow(alloc, config, ledger, &mut survey)?;
    let mut painter = Painter::new(alloc, config, numbers, &survey)?;
    follow(alloc, config, ledger, &mut painter)?;
    let mut text = Vec::new(alloc);
    painter.finish(&mut text, &survey, config)?;
    if let Some(illegal) = illegal {
        painter.put_illegal(alloc, &mut text, illegal)?;
    }
    put(&mut text, b"</svg>\n")?;
    Ok(text)
}

// Follows the ledger while this looks on. Its only error is `NoMemory`.
fn follow<W: Watch>(
    alloc: Global,
    config: &Config,
    ledger: &Ledger,
    watch: &mut W,
) -> Result<(), NoMemory> {
    let mut machine = Machine::new(alloc, config)?;
    first_stop(alloc, &mut machine, ledger, watch)?;
    Ok(())
}
