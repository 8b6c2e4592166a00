//! From words to a request.

ghost use Rattle.std.specs.Prelude.{◌≡◌, [], map, Some, true, is_some, IfOk, IfErr, OnOk};
ghost use Rattle.clap.specs.Words.{takes, fault_of as kinds_of_fault, subcommand_rows_of};
ghost use Rattle.gasday_words.specs.Meaning as spec;
ghost use Rattle.gasday_words.specs.Ordered.{requested};
ghost use Rattle.gasday_words.specs.Outcomes.{IsNoRequest, IsTold, RefusesChecks, RefusesClashes, RefusesNumbers, TakesAnswers, TakesDays, TakesFiles, TakesForms, TakesHelps, TakesRounds, TakesTexts, TakesVersions, TakesWaits};

use crate::fault::{UsageFault, fault_of, no_order};
use crate::line::gasday;
use crate::order::{Request, no_order_in, request_in};
use clap::ArgMatches;
use std::alloc::Global;
use std::convert::AsStr;

/// The request that the matches name. They name none where a word names no cycle, no round or no number of seconds,
/// or none of the checks and has not one text behind it, or where a gas day is given both an archive and a book's file.
fn request_named<'a>(alloc: Global, matches: &ArgMatches<'a>) -> Result<Request<'a>, UsageFault>
    ensures ok { IfOk result (λ o. spec.request_in (subcommand_rows_of matches.now) ≡ Some (requested o)) }
    ensures err { IfErr result (IsNoRequest (spec.request_in (subcommand_rows_of matches.now))) }
{
    match request_in(alloc, matches) {
        Ok(Some(request)) => Ok(request),
        Ok(None) => Err(no_order(alloc, no_order_in(matches))),
        Err(_) => Err(UsageFault::OutOfMemory),
    }
}

/// The request that the words name, by `clap`.
fn request_by_clap<'a, S: AsStr>(alloc: Global, words: &'a [S]) -> Result<Request<'a>, UsageFault>
    ensures meaning { IfOk result (λ o.
        spec.meaning_of (map S.text words.now) ≡ Some (requested o)) }
    ensures faultless { OnOk result (kinds_of_fault spec.gasday (map S.text words.now) ≡ []) }
    ensures taken { IfErr result (λ e. takes spec.gasday (map S.text words.now) ≡ true
        → is_some (spec.meaning_of (map S.text words.now)) ≡ true → e ≡ UsageFault.OutOfMemory) }
    ensures faults { IfErr result (IsTold (map S.text words.now)) }
{
    let Ok(line) = gasday(alloc) else {
        return Err(UsageFault::OutOfMemory);
    };
    match line.try_get_matches_from(words) {
        Ok(matches) => {
            let named = request_named(alloc, &matches);
            drop(matches);
            named
        }
        Err(error) => {
            let fault = fault_of(alloc, &error);
            drop(error);
            Err(fault)
        }
    }
}

/// The request that the words name. The first word is the program's own name, whatever it is; with
/// no word behind it the order is `check allowed`. A command that answers a text takes the names of files
/// that make up the text.
///
/// `Help` and `Version` come where the words ask for them, and `Usage` where they are at fault: an unknown word or
/// option, a word that is missing, one too many, one that is no cycle, round or number of seconds where it has to be,
/// one behind `check` that names none and has not one text behind it, or two options that exclude each other.
/// `OutOfMemory` can come at any words.
pub fn request_of<'a, S: AsStr>(alloc: Global, words: &'a [S]) -> Result<Request<'a>, UsageFault>
    // A request is what the words mean, and comes only where clap finds no fault in them.
    ensures meaning { IfOk result (λ o.
        spec.meaning_of (map S.text words.now) ≡ Some (requested o)) }
    ensures faultless { OnOk result (kinds_of_fault spec.gasday (map S.text words.now) ≡ []) }
    // Where clap takes the words and they mean a request, only memory can be short.
    ensures taken { IfErr result (λ e. takes spec.gasday (map S.text words.now) ≡ true
        → is_some (spec.meaning_of (map S.text words.now)) ≡ true → e ≡ UsageFault.OutOfMemory) }
    // Help, the version or Usage comes only where the words name no request.
    ensures faults { IfErr result (IsTold (map S.text words.now)) }

    // The forms of the program.
    ensures forms { TakesForms (map S.text words.now) result }
    ensures texts { TakesTexts (map S.text words.now) result }
    ensures answers { TakesAnswers (map S.text words.now) result }
    ensures checks { RefusesChecks (map S.text words.now) result }
    ensures files { TakesFiles (map S.text words.now) result }
    ensures days { TakesDays (map S.text words.now) result }
    ensures rounds { TakesRounds (map S.text words.now) result }
    ensures numbers { RefusesNumbers (map S.text words.now) result }
    ensures waits { TakesWaits (map S.text words.now) result }
    ensures clashes { RefusesClashes (map S.text words.now) result }
    ensures helps { TakesHelps (map S.text words.now) result }
    ensures versions { TakesVersions (map S.text words.now) result }
{
    request_by_clap(alloc, words)
}
