//! Whether a regulation may be opened.
ghost use Rattle.std.specs.Prelude.{◌≡◌, ◌<◌, ◌++◌, ◌∷◌, [], Ok, Err, true};
ghost use Rattle.std.specs.Prelude.{false, map, length, IfOk, IfErr, OnOk, ◌⊎◌};
ghost use Rattle.std.specs.List.{list_any};
ghost use Rattle.flow_plans.specs.Settings.{IsDeskTime};
ghost use Rattle.flow_regulations.specs.Listing.{regulation_of, is_named};
ghost use Rattle.flow_traffic.specs.declared.verdict.Kind.TheVariants as kind;
ghost use Rattle.flow_traffic.specs.Traffic.{Traffic};
ghost use Rattle.flow_traffic.specs.Asked.{asked_to_open, ordered};
ghost use Rattle.flow_traffic.specs.Opening.{has_period, regulation_by};
ghost use Rattle.flow_slots.specs.Limits.{rates_fit};

use flow_regulations::Regulations;
use flow_slots::{Limit, Shape, broken_limit};
use fpl_message::{OpenReg, Refusal};
use std::alloc::Allocator;

/// The greatest number of regulations that may be open at once.
pub const MAX_REGULATIONS: usize = 64;

/// The shape of a regulation that is to be opened. `BadPeriod` comes before `BadRate`.
#[tactic(auto, unfolding(crate::specs::Opening::has_period))]
fn shape_of(order: &OpenReg) -> Result<Shape, Refusal>
    requires from { IsDeskTime order.now.from }
    requires to { IsDeskTime order.now.to }
    ensures ok { IfOk result
        (λ shape. (has_period order.now ≡ true) × (rates_fit order.now.rate order.now.more ≡ true)
        × (shape ≡ (regulation_by order.now).period)) }
    ensures err { IfErr result (λ r. ((r ≡ Refusal.BadPeriod) × (has_period order.now ≡ false))
        ⊎ ((r ≡ Refusal.BadRate) × (has_period order.now ≡ true)
        × (rates_fit order.now.rate order.now.more ≡ false))) }
{
    let parts = order.more.as_slice();
    match broken_limit(order.from, order.to, order.rate, parts) {
        Some(Limit::Period) => Err(Refusal::BadPeriod),
        Some(Limit::Rate) => Err(Refusal::BadRate),
        None => Ok(Shape::new(order.from, order.to, order.rate, parts).unwrap()),
    }
}

/// The shape of a regulation that is to be opened beside these. Refuses, in this order, its period
/// (`BadPeriod`), a rate (`BadRate`), a name that is open (`RegulationHeld`), and one regulation
/// too many (`RegulationsFull`).
pub(crate) fn shape_to_open<A: Allocator + Copy>(
    order: &OpenReg,
    regulations: &Regulations<A>,
) -> Result<Shape, Refusal>
    requires from { IsDeskTime order.now.from }
    requires to { IsDeskTime order.now.to }
    ensures shape { IfOk result (λ shape. shape ≡ (regulation_by order.now).period) }
    ensures name { OnOk result (list_any (is_named order.now.id) regulations.now.lists ≡ false) }
    ensures few { OnOk result (length regulations.now.lists < MAX_REGULATIONS) }
    ensures asked { OnOk result
        ((t : Traffic) → t.regulations ≡ map regulation_of regulations.now.lists
        → asked_to_open t order.now
        ≡ Ok (ordered t kind.Open t.now (t.regulations ++ regulation_by order.now ∷ []))) }
    ensures refused { IfErr result
        (λ r. (t : Traffic) → t.regulations ≡ map regulation_of regulations.now.lists
        → asked_to_open t order.now ≡ Err r) }
{
    let shape = shape_of(order)?;
    if regulations.is_open(&order.id) {
        return Err(Refusal::RegulationHeld);
    }
    if regulations.count() >= MAX_REGULATIONS {
        return Err(Refusal::RegulationsFull);
    }
    Ok(shape)
}
