//! What lists of words say, and which are refused.

use command_words::{Command, RunOptions, RunWords, Sizes, WordsFault, read_words};
use std::alloc::Global;
use std::test::Fail;

/// Each list of words, with blanks between, and what it says. First come the command, N and SEED, then ranks,
/// servers, limit, budget, grain and inline, then progress, stats and ledger. `tour` and `flow` have no budget, grain or
/// inline. It says nothing if it is refused. A line has the words, a bar, and what they say.
const ROWS: &str = "\
    solve|solve 4 2 67108864 16777216 65536 false false false\n\
    solve --|solve 4 2 67108864 16777216 65536 false false false\n\
    solve --ranks 1 --servers 1|solve 1 1 67108864 16777216 65536 false false false\n\
    solve --servers 8|solve 4 8 67108864 16777216 65536 false false false\n\
    solve --ranks=32 --servers=1 --inline|solve 32 1 67108864 16777216 65536 true false false\n\
    solve --limit 64 --budget 1 --grain 1|solve 4 2 64 1 1 false false false\n\
    solve --limit=1073741824 --budget=4294967296 --grain=4294967296|solve 4 2 1073741824 4294967296 4294967296 false false false\n\
    solve --inline|solve 4 2 67108864 16777216 65536 true false false\n\
    solve --progress|solve 4 2 67108864 16777216 65536 false progress false false\n\
    solve --stats|solve 4 2 67108864 16777216 65536 false true false\n\
    solve --ledger|solve 4 2 67108864 16777216 65536 false false true\n\
    solve --ledger --grain=007 --stats --inline --budget +9|solve 4 2 67108864 9 7 true true true\n\
    check|check\n\
    draw|draw\n\
    make 0 7|make 0 7\n\
    make 100000 18446744073709551615|make 100000 18446744073709551615\n\
    drill 64 1|drill 64 1 4 2 67108864 16777216 65536 false\n\
    drill +3 004|drill 3 4 4 2 67108864 16777216 65536 false\n\
    drill --budget 100 8 --inline --limit=64 2 --grain=3|drill 8 2 4 2 64 100 3 true\n\
    drill --ranks 2 8 1|drill 8 1 2 2 67108864 16777216 65536 false\n\
    drill --inline 8 1 --progress|drill 8 1 4 2 67108864 16777216 65536 true progress\n\
    tour|tour 4 2 67108864\n\
    tour --ranks 1 --servers 1|tour 1 1 67108864\n\
    tour --progress --limit=64 --ranks=32 --servers=8|tour 32 8 64 progress\n\
    flow|flow 4 2 67108864\n\
    flow --servers=1 --ranks=1 --limit=64|flow 1 1 64\n\
    flow --ranks 32 --progress --servers 8|flow 32 8 67108864 progress\n\
    |\n\
    frob|\n\
    Solve|\n\
    --limit 64 solve|\n\
    solve solve|\n\
    solve --limit|\n\
    solve --limit=|\n\
    solve --limit --inline|\n\
    solve --limit many|\n\
    solve --limit -64|\n\
    solve --limit 6.4|\n\
    solve --limit 64 65|\n\
    solve --limit 63|\n\
    solve --limit 1073741825|\n\
    solve --limit 64 --limit 64|\n\
    solve --budget 0|\n\
    solve --budget 4294967297|\n\
    solve --budget 18446744073709551617|\n\
    solve --grain=0|\n\
    solve --grain=4294967297|\n\
    solve --inline --inline|\n\
    solve --inline=1|\n\
    solve --inl|\n\
    solve -inline|\n\
    solve --ranks|\n\
    solve --ranks 0|\n\
    solve --ranks 33|\n\
    solve --ranks=4294967297|\n\
    solve --ranks 2 --ranks 2|\n\
    solve --servers 0|\n\
    solve --servers 9|\n\
    make 8 1 --ranks 2|\n\
    check --servers 1|\n\
    solve --help|\n\
    solve -h|\n\
    solve --version|\n\
    check file|\n\
    check --stats|\n\
    check --progress|\n\
    solve --progress --progress|\n\
    make|\n\
    make 8|\n\
    make 8 1 2|\n\
    make 100001 1|\n\
    make 8 18446744073709551616|\n\
    make 8 1 --inline|\n\
    drill 8|\n\
    drill 8 1 --stats|\n\
    drill 8 1 --ledger|\n\
    tour 8|\n\
    tour --ranks 33|\n\
    tour --limit 63|\n\
    tour --limit 64 --limit 64|\n\
    tour --inline|\n\
    tour --grain 1|\n\
    tour --budget 1|\n\
    tour --stats|\n\
    tour --ledger|\n\
    flow 8|\n\
    flow --servers 9|\n\
    flow --limit=1073741825|\n\
    flow --progress --progress|\n\
    flow --inline|\n\
    flow --grain 1|\n\
    flow --budget 1|\n\
    flow --stats|\n\
    flow --ledger|\n\
";

fn sizes_shown(alloc: Global, sizes: Sizes) -> Result<String, Fail> {
    let Sizes {
        ranks,
        servers,
        limit,
    } = sizes;
    Ok(format!(in alloc; "{ranks} {servers} {limit}")?)
}

fn told(progress: bool) -> &'static str {
    if progress { " progress" } else { "" }
}

fn words_shown(alloc: Global, command: &str, words: RunWords) -> Result<String, Fail> {
    let sizes = sizes_shown(alloc, words.sizes)?;
    let told = told(words.progress);
    Ok(format!(in alloc; "{command} {sizes}{told}")?)
}

fn run_shown(alloc: Global, run: RunOptions) -> Result<String, Fail> {
    let RunOptions {
        sizes,
        budget,
        grain,
        inline,
        progress,
    } = run;
    let sizes = sizes_shown(alloc, sizes)?;
    let told = told(progress);
    Ok(format!(in alloc; "{sizes} {budget} {grain} {inline}{told}")?)
}

fn shown(alloc: Global, command: Command) -> Result<String, Fail> {
    Ok(match command {
        Command::Solve(words) => {
            let run = run_shown(alloc, words.options)?;
            let (stats, ledger) = (words.stats, words.ledger);
            format!(in alloc; "solve {run} {stats} {ledger}")?
        }
        Command::Check => String::from_str(alloc, "check")?,
        Command::Draw => String::from_str(alloc, "draw")?,
        Command::Make { count, seed } => format!(in alloc; "make {count} {seed}")?,
        Command::Drill {
            count,
            seed,
            options,
        } => {
            let run = run_shown(alloc, options)?;
            format!(in alloc; "drill {count} {seed} {run}")?
        }
        Command::Tour(words) => words_shown(alloc, "tour", words)?,
        Command::Flow(words) => words_shown(alloc, "flow", words)?,
    })
}

fn add_words(alloc: Global, line: &str, words: &mut Vec<String>) -> Result<(), Fail> {
    for word in line.split_whitespace() {
        let word = String::from_str(alloc, word)?;
        words.push(word)?;
    }
    Ok(())
}

fn read(alloc: Global, line: &str) -> Result<String, Fail> {
    let mut words = Vec::new(alloc);
    add_words(alloc, line, &mut words)?;
    match read_words(alloc, words.as_slice()) {
        Ok(command) => shown(alloc, command),
        Err(WordsFault::Usage) => Ok(String::new(alloc)),
        Err(WordsFault::Memory) => Err(Fail::from("out of memory")),
    }
}

fn is_said(alloc: Global, line: &str, expected: &str) -> Result<bool, Fail> {
    let said = read(alloc, line)?;
    Ok(said.as_str() == expected)
}

fn is_row(alloc: Global, row: &str) -> Result<bool, Fail> {
    let mut parts = row.split("|");
    let line = parts.next().unwrap_or("");
    is_said(alloc, line, parts.next().unwrap_or(""))
}

#[test]
fn says_or_refuses_each_row(rt: HostRuntime) -> Result<(), Fail> {
    for row in ROWS.lines() {
        assert!(rt; is_row(rt.alloc(), row)?, "{row}");
    }
    Ok(())
}
