//! A posting without the spread.

ghost use Rattle.std.specs.Prelude.{◌≡◌, IfOk, map};
ghost use Rattle.gd_body.specs.Spread as spec;

use gd_board::Posting;
use gd_certificate::Prices;
use gd_cost::{Lex, Pair, Tariff};
use std::alloc::{AllocError, Global};

/// A price with its first eight words alone.
fn first_words(price: Tariff) -> Tariff
    ensures { result ≡ spec.first_words price }
{
    Pair::of(price.first(), Lex::of([0; 8]))
}

/// These prices, each with its first eight words alone.
fn first_of_all(alloc: Global, prices: &[Tariff]) -> Result<Vec<Tariff>, AllocError>
    ensures { IfOk result (λ v. v.items ≡ map spec.first_words prices.now) }
{
    let mut kept = Vec::with_capacity(alloc, prices.len())?;
    'prices: for price in prices {
        kept.push(first_words(*price))?;
    }
    Ok(kept)
}

/// The same posting, of whose prices each word of the spread is 0. The only error is want of memory.
pub fn without_spread(alloc: Global, posting: Posting) -> Result<Posting, AllocError>
    ensures { IfOk result (λ kept. kept ≡ spec.without_spread posting) }
{
    let values = match first_of_all(alloc, posting.prices.values()) {
        Ok(values) => values,
        Err(fault) => {
            drop(posting);
            return Err(fault);
        }
    };
    let Posting {
        book,
        cycle,
        round,
        question,
        schedule,
        prices,
        bumped,
    } = posting;
    drop(prices);
    Ok(Posting {
        book,
        cycle,
        round,
        question,
        schedule,
        prices: Prices::of(values),
        bumped,
    })
}
