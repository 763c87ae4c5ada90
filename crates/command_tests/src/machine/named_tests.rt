//! Commands whose values are sealed under keys that texts in them name.

use crate::machine::decrypting_samples::master;
use crate::machine::fed_keys::Fed;
use crate::machine::named_samples::{
    NAME, OLD_NAME, is_filter_of_one_name, is_named_insert_sealed, is_two_names_sealed,
    named_infos, named_insert, two_names,
};
use crate::machine::sealing_tests::{Held, fed, holding, sealed};
use context_machine::{KeysStop, Need, NeedKeys};
use crypto_hooks::Tables;
use encrypt_schema::Reason;
use std::alloc::Global;

/// The infos, and these keys; `None` where there was no memory.
fn having_named(alloc: Global, fed: &[Fed]) -> Option<Held> {
    holding(alloc, named_infos(alloc)?, fed)
}

/// Whether what is needed is this name.
fn is_name(need: Option<Need<'_>>, name: &[u8]) -> bool {
    matches!(need, Some(Need::Name(found)) if found == name)
}

/// Whether both names are asked for, in the order of first use, and nothing else.
fn needs_both(waits: &NeedKeys<'_>) -> bool {
    is_name(waits.needed(0), NAME)
        && is_name(waits.needed(1), OLD_NAME)
        && waits.needed(2).is_none()
}

#[test]
fn a_key_is_asked_for_by_the_name_in_the_command(rt: HostRuntime) {
    let held = having_named(rt.alloc(), &[]).expect(&rt, "no memory");
    let waits = fed(rt.alloc(), &held, named_insert()).expect(&rt, "no keys are asked for");
    assert!(rt; matches!(&waits.op(rt.alloc()), Ok(f) if is_filter_of_one_name(f)));
    assert!(rt; is_name(waits.needed(0), NAME) && waits.needed(1).is_none());
}

#[test]
fn a_value_is_sealed_under_the_key_of_that_name(rt: HostRuntime) {
    let held = having_named(rt.alloc(), &[Fed::Right, Fed::Named]).expect(&rt, "no memory");
    let waits = fed(rt.alloc(), &held, named_insert()).expect(&rt, "no keys are asked for");
    assert!(rt; matches!(&sealed(rt.alloc(), waits), Some(b) if is_named_insert_sealed(b)));
}

#[test]
fn one_key_meets_two_names(rt: HostRuntime) {
    let held = having_named(rt.alloc(), &[Fed::Named]).expect(&rt, "no memory");
    let waits = fed(rt.alloc(), &held, two_names()).expect(&rt, "no keys are asked for");
    assert!(rt; needs_both(&waits));
    assert!(rt; matches!(&sealed(rt.alloc(), waits), Some(b) if is_two_names_sealed(b)));
}

/// Why these keys don't do for the command of two names; `None` where they do, or are never asked for.
fn stop(alloc: Global, keys: &[Fed]) -> Option<KeysStop> {
    let held = having_named(alloc, keys)?;
    let (_, stop) = fed(alloc, &held, two_names())?
        .done(alloc, &master(), &Tables)
        .err()?;
    Some(stop)
}

#[test]
fn a_name_that_no_key_has_is_refused_at_its_first_value(rt: HostRuntime) {
    let refused = KeysStop::Refused {
        reason: Reason::KeyMissing,
        at: 70,
    };
    assert!(rt; stop(rt.alloc(), &[Fed::Right]) == Some(refused));
}
