//! Jobs by example: boards, jobs' text, the units that are made of them, and their report. Made inputs and jobs over
//! bytes come next, and then the program of a rank over a link that has no other rank; and cities with their first tours.

mod boards;
mod lanes;
mod made;
mod puzzles;
mod reports;
mod texts;
mod tours;
mod units;
