//! Classes under a firm and an interruptible contract, on a pipeline with a branch: S1 leads from A to B, S2 from B to C
//! and S3 from B to E. R1 is a receipt at A; D1, DB and DE are deliveries at C, B and E.

use gd_contracts::{Contract, ContractFault, Contracts, Service};
use gd_system::{BuildFault, Kind, System, SystemBuilder};
use gd_units::{Band, Dth, Name};
use std::alloc::Global;
use std::process::Abort;
use std::test::Fail;

fn name(rt: &impl Abort, text: &str) -> Name {
    Name::read(text).expect(rt, "a name")
}

fn add_segments(rt: &impl Abort, builder: &mut SystemBuilder) -> Result<(), BuildFault> {
    for (text, from, to) in [("S1", "A", "B"), ("S2", "B", "C"), ("S3", "B", "E")] {
        builder.segment(name(rt, text), name(rt, from), name(rt, to), Dth::ZERO)?;
    }
    Ok(())
}

fn add_points(rt: &impl Abort, builder: &mut SystemBuilder) -> Result<(), BuildFault> {
    let operator = name(rt, "OP");
    for (text, kind, place) in [
        ("R1", Kind::Receipt, "A"),
        ("D1", Kind::Delivery, "C"),
        ("DB", Kind::Delivery, "B"),
        ("DE", Kind::Delivery, "E"),
    ] {
        builder.point(name(rt, text), kind, name(rt, place), operator, Dth::ZERO)?;
    }
    Ok(())
}

fn finished(builder: SystemBuilder) -> Result<System, BuildFault> {
    match builder.finish() {
        Ok(system) => Ok(system),
        Err((fault, builder)) => {
            drop(builder);
            Err(fault)
        }
    }
}

fn branch(rt: &impl Abort, alloc: Global) -> Result<System, BuildFault> {
    let mut builder = SystemBuilder::new(alloc);
    add_segments(rt, &mut builder)?;
    add_points(rt, &mut builder)?;
    finished(builder)
}

fn contract(rt: &impl Abort, text: &str, service: Service) -> Contract {
    Contract {
        name: name(rt, text),
        shipper: name(rt, "SHIP"),
        quantity: Dth::ZERO,
        service,
    }
}

/// F is firm from R1 to D1, and I is interruptible at band 3.
fn add_two(rt: &impl Abort, contracts: &mut Contracts) -> Result<(), ContractFault> {
    let firm = Service::Firm {
        origin: name(rt, "R1"),
        dest: name(rt, "D1"),
    };
    let interruptible = Service::Interruptible {
        band: Band::new(3).expect(rt, "a band"),
    };
    contracts.add(contract(rt, "F", firm))?;
    contracts.add(contract(rt, "I", interruptible))
}

fn shows_class(rt: &impl Abort, contracts: &Contracts, text: &str, dest: &str, wanted: u8) {
    let told = contracts.class_of(name(rt, text), name(rt, "R1"), name(rt, dest));
    let class = told.ok().expect(rt, "a class");
    assert_eq!(rt; class.number(), wanted);
}

/// To the primary delivery, to one on the way, and to one off it; at band 3 each is of class 6.
fn shows_classes(rt: &impl Abort, contracts: &Contracts) {
    for (text, dest, wanted) in [
        ("F", "D1", 1),
        ("F", "DB", 2),
        ("F", "DE", 3),
        ("I", "D1", 6),
        ("I", "DE", 6),
    ] {
        shows_class(rt, contracts, text, dest, wanted);
    }
}

#[test]
fn classes(rt: HostRuntime) -> Result<(), Fail> {
    let mut contracts = Contracts::new(rt.alloc(), branch(&rt, rt.alloc())?);
    add_two(&rt, &mut contracts)?;
    shows_classes(&rt, &contracts);
    Ok(())
}
