//! Sensitized paths, traced back over the frames of a burst in 64 lanes.
use crate::gates::word_at;
use crate::paths::{NO_PATHS, Paths};
use crate::pins::{trace_pins, within};
use crate::plan::{Plan, PlanFault, PlanGate, PlanSite};
use crate::runs::Runs;
use ht_lanes::Word;
use ht_tern::Tern;
use std::alloc::{AllocError, Global};

// The paths of a number in a list, none where it isn't there.
#[inline(always)]
fn paths_at(paths: &[Paths], i: usize) -> Paths {
    match paths.get(i) {
        Some(paths) => *paths,
        None => NO_PATHS,
    }
}

// Adds paths to those of a number in a list.
#[inline(always)]
fn unite(all: &mut [Paths], i: usize, paths: Paths) {
    if let Some(place) = all.get_mut(i) {
        place.output |= paths.output;
        place.end |= paths.end;
    }
}

/// The paths of all lines of a frame, and of the faults that are looked at in all frames so far.
#[derive(Drop)]
pub struct Trace {
    by_net: Vec<Paths>,
    by_pin: Vec<Paths>,
    // of the data pins of the flip-flops
    by_data: Vec<Paths>,
    /// Of each fault that is looked at: the lanes in which it is hoped for, and in which it is stored.
    pub found: Vec<Paths>,
}

impl Trace {
    /// Room for the paths of a plan.
    ///
    /// # Errors
    /// Out of memory.
    pub fn new(alloc: Global, plan: &Plan) -> Result<Trace, AllocError> {
        Ok(Trace {
            by_net: vec![in alloc; NO_PATHS; plan.nets()]?,
            by_pin: vec![in alloc; NO_PATHS; plan.pins.len()]?,
            by_data: vec![in alloc; NO_PATHS; plan.data.len()]?,
            found: Vec::new(alloc),
        })
    }

    /// Traces back from the last of so many frames to the first, for faults of a list by their numbers.
    ///
    /// A fault is hoped for in a lane where in some frame the good value is definite and the opposite of the stuck one and
    /// the line has a path to an output, and stored where so with a path to the end. It is an estimate: paths that meet
    /// again, the fault in other frames, and effects that are in flip-flops already aren't looked at.
    ///
    /// # Errors
    /// Out of memory.
    pub fn trace(
        &mut self,
        plan: &Plan,
        runs: &Runs,
        frames: usize,
        faults: &[PlanFault],
        looked: &[u32],
    ) -> Result<(), AllocError> {
        self.found.clear();
        self.found.resize(looked.len(), NO_PATHS)?;
        self.by_data.fill(Paths {
            output: 0,
            end: u64::MAX,
        });
        for frame in (0..frames).rev() {
            let words = runs.frame(frame);
            start_frame(plan, &self.by_data, &mut self.by_net);
            trace_gates(plan, words, &mut self.by_net, &mut self.by_pin);
            self.find(plan, words, faults, looked);
            pass_on(plan.inputs, &self.by_net, &mut self.by_data);
        }
        Ok(())
    }

    // The line of a fault: its net, and its paths in this frame.
    #[inline(always)]
    fn line(&self, plan: &Plan, site: PlanSite) -> (u32, Paths) {
        match site {
            PlanSite::Net(net) => (net, paths_at(&self.by_net, net as usize)),
            PlanSite::Data(dff) => (
                net_at(&plan.data, dff),
                paths_at(&self.by_data, dff as usize),
            ),
            PlanSite::Pin(pin) => (
                net_at(&plan.pins, pin),
                paths_at(&self.by_pin, pin as usize),
            ),
        }
    }

    // Adds what a frame shows of each fault that is looked at.
    fn find(&mut self, plan: &Plan, words: &[Word], faults: &[PlanFault], looked: &[u32]) {
        for (i, number) in looked.iter().enumerate() {
            if let Some(fault) = faults.get(*number as usize) {
                let (net, paths) = self.line(plan, fault.site);
                let lanes = word_at(words, net).opposite(Tern::from(fault.value));
                unite(&mut self.found, i, within(paths, lanes));
            }
        }
    }
}

// The paths of the nets before any gate: those of outputs and of data pins.
fn start_frame(plan: &Plan, by_data: &[Paths], by_net: &mut [Paths]) {
    by_net.fill(NO_PATHS);
    for net in &plan.outputs {
        unite(
            by_net,
            *net as usize,
            Paths {
                output: u64::MAX,
                end: 0,
            },
        );
    }
    add_data(plan, by_data, by_net);
}

// Adds the paths of the data pins to those of their nets.
fn add_data(plan: &Plan, by_data: &[Paths], by_net: &mut [Paths]) {
    for (dff, net) in plan.data.iter().enumerate() {
        unite(by_net, *net as usize, paths_at(by_data, dff));
    }
}

// The paths of all pins and nets, gate by gate from the last one back.
fn trace_gates(plan: &Plan, words: &[Word], by_net: &mut [Paths], by_pin: &mut [Paths]) {
    let first = plan.first_gate();
    for i in (0..plan.gates.len()).rev() {
        let gate = plan.gates[i];
        let paths = paths_at(by_net, first.saturating_add(i));
        trace_gate(plan, gate, words, paths, by_net, by_pin);
    }
}

// The paths of the pins of a gate with these paths, which are added to those of the nets.
#[inline(always)]
fn trace_gate(
    plan: &Plan,
    gate: PlanGate,
    words: &[Word],
    paths: Paths,
    by_net: &mut [Paths],
    by_pin: &mut [Paths],
) {
    let nets = plan.nets_of(gate);
    if let Some(pins) = by_pin.get_mut(gate.begin..gate.end)
        && pins.len() == nets.len()
    {
        trace_pins(gate.kind, nets, words, paths, pins);
        unite_pins(nets, pins, by_net);
    }
}

// Adds the paths of pins to those of their nets.
#[inline(always)]
fn unite_pins(nets: &[u32], pins: &[Paths], by_net: &mut [Paths]) {
    for (i, net) in nets.iter().enumerate() {
        unite(by_net, *net as usize, paths_at(pins, i));
    }
}

// The net of a number in a list.
#[inline(always)]
fn net_at(nets: &[u32], i: u32) -> u32 {
    match nets.get(i as usize) {
        Some(net) => *net,
        None => u32::MAX,
    }
}

// What a flip-flop's net has in a frame, its data pin has in the frame before.
fn pass_on(inputs: usize, by_net: &[Paths], by_data: &mut [Paths]) {
    let mut net = inputs;
    for paths in by_data.iter_mut() {
        *paths = paths_at(by_net, net);
        net = net.saturating_add(1);
    }
}
