//! The maker of puzzles: a full grid whose digits are shuffled and of which cells are blanked.

ghost use Rattle.std.specs.Prelude.{◌≡◌};
ghost use Rattle.made_jobs.specs.Made.{blanks, draw, puzzle, relabelled, seeded, shuffled};

use rand_core::utils::NextWord;
use rand_pcg::Pcg32;

/// The stream of the generator.
const STREAM: u64 = 54;

/// How often a cell of a puzzle is blanked.
const BLANKS: usize = 40;

/// The full grid, by rows.
const FULL_GRID: &[u8; 81] =
    b"534678912672195348198342567859761423426853791713924856961537284287419635345286179";

/// Makes puzzles, one after the other, by the words of one generator.
#[derive(Drop)]
pub(crate) struct Maker {
    generator: Pcg32,
}

impl Maker {
    /// The maker of a seed (`seeded`).
    pub(crate) fn new(seed: u64) -> Maker
        ensures { result.generator ≡ seeded seed }
    {
        Maker {
            generator: Pcg32::new(seed, STREAM),
        }
    }

    /// The signs of the next puzzle: digits from 1 to 9, and dots for blank cells (`puzzle`).
    pub(crate) fn puzzle(&mut self) -> [u8; 81]
        ensures { (result, self.new.generator) ≡ puzzle self.old.generator }
    {
        let signs = self.shuffled_signs();
        let mut cells = relabel(&signs);
        self.blank_cells(&mut cells);
        cells
    }

    // The next word.
    fn word(&mut self) -> usize
        ensures { (result, self.new.generator) ≡ draw self.old.generator }
    {
        self.generator.next_word() as usize
    }

    // The signs of the digits, shuffled.
    fn shuffled_signs(&mut self) -> [u8; 9]
        ensures { (result, self.new.generator) ≡ shuffled self.old.generator }
    {
        let mut signs = *b"123456789";
        for place in (1..9).rev() {
            let other = self.word() % (place + 1);
            signs.swap(place, other);
        }
        signs
    }

    // Blanks drawn cells.
    fn blank_cells(&mut self, cells: &mut [u8; 81])
        ensures { (cells.new, self.new.generator) ≡ blanks 40 (cells.old, self.old.generator) }
    {
        for _ in 0..BLANKS {
            let cell = self.word() % 81;
            cells[cell] = b'.';
        }
    }
}

// The full grid with these signs for the digits 1 to 9.
fn relabel(signs: &[u8; 9]) -> [u8; 81]
    ensures { result ≡ relabelled signs.now }
{
    let mut cells = [b'.'; 81];
    for (place, &digit) in FULL_GRID.iter().enumerate() {
        cells[place] = signs[usize::from(digit - b'1')];
    }
    cells
}
