//! Tests of public calls that no run makes: the searches and the checker over a circuit, by hand.
//!
//! Net 0 is a, and 1, 2 and 3 are the flip-flops q, r and s. A 1 at the input comes to q and to r, the output, in the
//! frames after it; what s holds nothing reads.
use ht_bench::read;
use ht_check::entry;
use ht_desks::CleanDesk;
use ht_forward::{Ahead, Swept, propagate, sweep};
use ht_items::Items;
use ht_justify::{Back, justify};
use ht_net::{Circuit, Fault, NetId, Site, Vectors};
use ht_oneframe::{OneFrame, refute};
use ht_ports::{Desk, InPort, read_all};
use ht_tern::Tern::{One, Unk, Zero};
use ht_tree::{Entry, Token};
use ht_window::PairState;
use std::alloc::{AllocError, Global};
use std::test::Fail;

const REGISTER: &[u8] = b"INPUT(a)\nOUTPUT(r)\nq = DFF(a)\nr = DFF(q)\ns = DFF(r)\n";

const A_AT_0: Fault = Fault {
    site: Site::Stem(NetId(0)),
    value: false,
};

const S_AT_0: Fault = Fault {
    site: Site::Stem(NetId(3)),
    value: false,
};

// Whether a list has these bits at its one input.
fn is_list(list: &Vectors, bits: &[bool]) -> bool {
    if list.len() != bits.len() as u64 {
        return false;
    }
    for t in 0..bits.len() {
        if list.get(t as u64) != [bits[t]].as_slice() {
            return false;
        }
    }
    true
}

// Whether a difference at s is sealed at once.
fn is_refuted(alloc: Global, circuit: &Circuit) -> Result<bool, AllocError> {
    match refute(alloc, circuit, S_AT_0, 1)? {
        OneFrame::Refuted { z, tokens } => {
            Ok(z.as_slice().is_empty() && tokens.as_slice() == [Token::Dead].as_slice())
        },
        _ => Ok(false),
    }
}

// Whether the sweep of a finds the list 1, 0, 0. The lengths 1 and 2 take a token each, of which the second weighs 2,
// and the decision of length 3 weighs 3.
fn is_swept(alloc: Global, circuit: &Circuit) -> Result<bool, AllocError> {
    match sweep(alloc, circuit, A_AT_0, 6)? {
        Swept::Found { list } => Ok(is_list(&list, &[true, false, false])),
        _ => Ok(false),
    }
}

// Whether a difference at q is shown by two vectors, since it comes to r in the second frame.
fn is_shown(alloc: Global, circuit: &Circuit) -> Result<bool, AllocError> {
    let state = PairState {
        good: Items::from_slice(alloc, &[One, Unk, Unk])?,
        bad: Items::from_slice(alloc, &[Zero, Unk, Unk])?,
    };
    if circuit.dffs() != 3 {
        return Ok(false);
    }
    match propagate(alloc, circuit, A_AT_0, &state, 1)? {
        Ahead::Found { list } => Ok(is_list(&list, &[false, false])),
        _ => Ok(false),
    }
}

// Whether a 1 comes to r by a 1 that is shifted in first; the input of the second frame is undecided, so it is 0.
fn is_justified(alloc: Global, circuit: &Circuit) -> Result<bool, AllocError> {
    if circuit.dffs() != 3 {
        return Ok(false);
    }
    match justify(alloc, circuit, &[Unk, One, Unk], 32, 100)? {
        Back::Reached { list } => Ok(is_list(&list, &[true, false])),
        _ => Ok(false),
    }
}

// Whether that refutation of s passes, and the same of a doesn't.
fn is_judged(alloc: Global, circuit: &Circuit) -> Result<bool, AllocError> {
    let record = Entry::Untestable {
        z: Items::new(alloc),
        tokens: Items::from_slice(alloc, &[Token::Dead])?,
    };
    if circuit.dffs() != 3 {
        return Ok(false);
    }
    let start = [Unk, Unk, Unk];
    Ok(
        entry(alloc, circuit, &start, S_AT_0, 1, &record)?
            && !entry(alloc, circuit, &start, A_AT_0, 1, &record)?,
    )
}

#[test]
fn a_circuit_is_searched_and_judged(rt: HostRuntime) -> Result<(), Fail> {
    let circuit = read(rt.alloc(), REGISTER)?;
    assert!(rt; is_refuted(rt.alloc(), &circuit)?, "refute");
    assert!(rt; is_swept(rt.alloc(), &circuit)?, "sweep");
    assert!(rt; is_shown(rt.alloc(), &circuit)?, "propagate");
    assert!(rt; is_justified(rt.alloc(), &circuit)?, "justify");
    assert!(rt; is_judged(rt.alloc(), &circuit)?, "entry");
    Ok(())
}

// The newest text of a name on a desk that never fails.
fn newest_text(alloc: Global, desk: &mut CleanDesk) -> Result<Vec<u8>, Fail> {
    desk.put("n", b"old")?;
    desk.put("n", b"new")?;
    desk.open(InPort::Netlist, "n")?;
    Ok(read_all(alloc, desk, InPort::Netlist, 9)?)
}

#[test]
fn a_clean_desk_gives_its_newest_text(rt: HostRuntime) -> Result<(), Fail> {
    let mut desk = CleanDesk::new(rt.alloc());
    assert!(rt; newest_text(rt.alloc(), &mut desk)?.as_slice() == b"new".as_slice());
    Ok(())
}
