//! The values of a plan after a CHG.
ghost use Rattle.std.specs.Prelude.{◌≡◌, ◌<◌, List, Option, IfSome, unwrap_or, option_copied};
ghost use Rattle.std.specs.Option.{option_map_or};
ghost use Rattle.fpl_items.specs.Items.{ItemView, is_exempt};
ghost use Rattle.fpl_items.specs.Other18.{TellsOfAny};
ghost use Rattle.flow_plans.specs.Changes.{elapsed_after, alternates_after};
ghost use Rattle.fpl_text.specs.declared.time.TheConstants.{ELAPSED_LIMIT};

use fpl_items::Effects;
use fpl_text::{Alternates, Destination, FlightRules, Rules};

pub(crate) fn text_after<'a>(held: &'a [u8], amended: Option<&'a [u8]>) -> &'a [u8]
    ensures { result.now ≡ unwrap_or (option_copied amended.entry) held.now }
{
    match amended {
        Some(text) => text,
        None => held,
    }
}

pub(crate) fn rules_after(held: FlightRules, amended: Option<&Rules>) -> FlightRules
    ensures { result ≡ option_map_or (λ rules. rules.rules) (option_copied amended.entry) held }
{
    match amended {
        Some(rules) => rules.rules,
        None => held,
    }
}

/// Whether an amended field 18 exempts the flight; `held` if it isn't amended.
pub(crate) fn exempt_after(held: bool, amended: Option<&Effects>) -> bool
    ensures { (items : Option (List ItemView)) → TellsOfAny items (option_copied amended.entry)
        → result ≡ option_map_or is_exempt items held }
{
    match amended {
        Some(effects) => effects.exempt(),
        None => held,
    }
}

/// The elapsed time of an amended field 16 that has one, or else `held`.
pub(crate) fn elapsed_after(held: u32, amended: Option<&Destination>) -> u32
    requires held { held < ELAPSED_LIMIT }
    requires amended { IfSome amended (λ amended.
        IfSome amended.now.elapsed (λ minutes. minutes < ELAPSED_LIMIT)) }
    ensures value { result ≡ elapsed_after held (option_copied amended.entry) }
    ensures bound { result < ELAPSED_LIMIT }
{
    match amended {
        Some(destination) => destination.elapsed.unwrap_or(held),
        None => held,
    }
}

/// The alternates of an amended field 16 that has an elapsed time, or else `held`.
pub(crate) fn alternates_after(held: &Alternates, amended: Option<&Destination>) -> Alternates
    ensures { result ≡ alternates_after held.now (option_copied amended.entry) }
{
    match amended {
        Some(destination) => {
            if destination.elapsed.is_some() {
                destination.alternates
            } else {
                *held
            }
        }
        None => *held,
    }
}
