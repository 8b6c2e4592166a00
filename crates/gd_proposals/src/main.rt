//! Trials of what the network simplex proposes, of which no contract says that it is right.
//!
//! `gd_proposals MODE < QUESTION` reads a question as `gasday solve` does. With the mode `proposed` it tells in one line
//! what comes of the proposal, and after how many pivots: `passes` where the schedule is allowed and the potentials show it
//! best, `cut` where no schedule is allowed, else `refused`. With the other modes it spoils the proposal, and prints the
//! answer that the solver gives all the same, as `gasday solve` prints it: `thrown-away` hands on nothing, `lowered` each
//! quantity lowered by a dekatherm, and `reversed` the potentials in the opposite order.
//!
//! The exit status is 1 where a proposal was refused, or no schedule is allowed, and 2 where the words, the text, the
//! reader, the writer or memory are at fault.
#![tactic(auto)]

ghost use Rattle.gd_solver.specs.Answer.{Solves};

use gd_certificate::check_cut;
use gd_cost::Tariff;
use gd_mincost::show_best;
use gd_network::Network;
use gd_question::Question;
use gd_replies::{Reply, cut_replies, solved_replies};
use gd_schedule::Schedule;
use gd_simplex::{Proposal, propose};
use gd_solver::{Answer, solve_with};
use gd_text::question_of;
use gd_text_part::{Form, TextFault, read_all, write_bytes};
use gd_units::Dth;
use std::alloc::{AllocError, Global};
use std::env;
use std::io::{self, Read, Write};
use std::process::ExitCode;

/// What is printed, and the exit status that goes with it.
#[derive(Drop)]
struct Told {
    text: String,
    status: u8,
}

/// What is done with a proposal.
#[derive(Clone, Copy, Debug, PartialEq, Eq)]
enum Mode {
    Proposed,
    ThrownAway,
    Lowered,
    Reversed,
}

/// The mode of this name.
fn mode_named(name: &str) -> Option<Mode> {
    match name {
        "proposed" => Some(Mode::Proposed),
        "thrown-away" => Some(Mode::ThrownAway),
        "lowered" => Some(Mode::Lowered),
        "reversed" => Some(Mode::Reversed),
        _ => None,
    }
}

/// A schedule with each quantity lowered by a dekatherm, where it isn't 0.
fn lowered(alloc: Global, schedule: &Schedule) -> Result<Schedule, AllocError> {
    let mut quantities = Vec::with_capacity(alloc, schedule.len())?;
    for quantity in schedule.quantities() {
        let less = quantity.get().saturating_sub(1);
        quantities.push(Dth::new(less).unwrap_or(*quantity))?;
    }
    Ok(Schedule::of(quantities))
}

/// What is handed on of a proposal.
fn spoiled(alloc: Global, mode: Mode, mut proposal: Proposal) -> Result<Proposal, AllocError> {
    match mode {
        Mode::Proposed => {}
        Mode::ThrownAway => {
            proposal.schedule = Schedule::of(Vec::new(alloc));
            proposal.potentials = Vec::new(alloc);
        }
        Mode::Lowered => proposal.schedule = lowered(alloc, &proposal.schedule)?,
        Mode::Reversed => proposal.potentials.reverse(),
    }
    Ok(proposal)
}

/// Whether potentials show the first flow of a network best.
fn show_first_best(network: &Network<'_>, potentials: &[Tariff]) -> bool {
    network.known();
    show_best(network, network.first().amounts(), potentials)
}

/// Whether the potentials of a proposal show its schedule best.
fn is_best(alloc: Global, question: &Question, proposal: &Proposal) -> Result<bool, AllocError> {
    let network = Network::at(alloc, question, &proposal.schedule)?;
    let shown = show_first_best(&network, proposal.potentials.as_slice());
    drop(network);
    Ok(shown)
}

/// Whether a proposal is right: its schedule is allowed, and its potentials show it best.
fn passes(alloc: Global, question: &Question, proposal: &Proposal) -> Result<bool, AllocError> {
    Ok(is_best(alloc, question, proposal)? && proposal.schedule.allowed(alloc, question).is_ok())
}

/// What comes of a proposal.
fn verdict(alloc: Global, question: &Question, proposal: Proposal) -> Result<Told, AllocError> {
    let pivots = proposal.pivots;
    let (word, status) = if passes(alloc, question, &proposal)? {
        ("passes", 0)
    } else {
        match solve_with(alloc, question, proposal)? {
            Answer::Best(_, _) => ("refused", 1),
            Answer::Impossible(_) => ("cut", 0),
        }
    };
    let text = format!(in alloc; "{word} {pivots}\n")?;
    Ok(Told { text, status })
}

/// The rows of an answer.
fn rows_of(alloc: Global, question: &Question, answer: &Answer) -> Result<Vec<Reply>, AllocError>
    requires { Solves question.now answer.now }
{
    match answer {
        Answer::Best(schedule, prices) => solved_replies(alloc, question, schedule, prices),
        Answer::Impossible(cut) => {
            let excess = check_cut(question, cut).unwrap_or(0);
            cut_replies(alloc, question, cut, excess)
        }
    }
}

/// The rows of an answer as text.
fn text_of(alloc: Global, question: &Question, answer: &Answer) -> Result<String, AllocError>
    requires { Solves question.now answer.now }
{
    let rows = rows_of(alloc, question, answer)?;
    let mut text = String::new(alloc);
    for row in &rows {
        text.push_str(row.to_string(alloc)?.as_str())?;
    }
    Ok(text)
}

/// The answer to a question of which a proposal was spoiled.
fn answered(alloc: Global, question: &Question, proposal: Proposal) -> Result<Told, AllocError> {
    let answer = solve_with(alloc, question, proposal)?;
    let text = text_of(alloc, question, &answer)?;
    let status = match answer {
        Answer::Best(_, _) => 0,
        Answer::Impossible(_) => 1,
    };
    Ok(Told { text, status })
}

/// What is told of a question in this mode.
fn trial(alloc: Global, mode: Mode, question: &Question) -> Result<Told, AllocError> {
    let floors = Schedule::of(Vec::new(alloc));
    let proposal = propose(alloc, question, &floors)?;
    match mode {
        Mode::Proposed => verdict(alloc, question, proposal),
        _ => answered(alloc, question, spoiled(alloc, mode, proposal)?),
    }
}

/// What is told of the question that a reader gives.
fn trial_of<R: Read>(alloc: Global, mode: Mode, reader: &mut R) -> Result<Told, TextFault> {
    let rows = read_all(alloc, Form::Solve, reader)?;
    let question = question_of(alloc, &rows)?;
    Ok(trial(alloc, mode, &question)?)
}

/// Writes what is told of the question that a reader gives, and answers the exit status.
fn run<R: Read, W: Write>(alloc: Global, mode: Mode, reader: &mut R, writer: &mut W) -> u8 {
    let Ok(told) = trial_of(alloc, mode, reader) else {
        return 2;
    };
    match write_bytes(writer, told.text.as_bytes()) {
        Ok(()) => told.status,
        Err(_) => 2,
    }
}

/// Reads the word of the command line, and tries the proposal of the question on standard input.
fn main(rt: HostRuntime) -> ExitCode {
    let Ok(words) = env::args(&rt) else {
        return ExitCode::from(2);
    };
    let Ok(words) = words.collect::<Vec<String>>(rt.alloc()) else {
        return ExitCode::from(2);
    };
    let Some(mode) = words.get(1).and_then(|word| mode_named(word.as_str())) else {
        return ExitCode::from(2);
    };
    let mut reader = rt.reader();
    let mut writer = io::writer(&rt);
    ExitCode::from(run(rt.alloc(), mode, &mut reader, &mut writer))
}
