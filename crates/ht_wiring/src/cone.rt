//! What a line may change.
use crate::line::Line;
use crate::wiring::Wiring;
use std::alloc::{AllocError, Global};

/// The nets that a line may change, in one frame or in any number of them.
#[derive(Clone, Drop)]
pub struct Cone {
    // by net
    marks: Vec<bool>,
    nets: Vec<u32>,
}

impl Cone {
    /// The cone of no line.
    ///
    /// # Errors
    /// Out of memory.
    pub fn new(alloc: Global, wiring: &Wiring) -> Result<Cone, AllocError> {
        Ok(Cone {
            marks: vec![in alloc; false; wiring.nets()]?,
            nets: Vec::new(alloc),
        })
    }

    /// The nets, each once.
    pub fn nets(&self) -> &[u32] {
        &self.nets
    }

    /// Whether a net is of the cone.
    #[inline(always)]
    pub fn has(&self, net: u32) -> bool {
        match self.marks.get(net as usize) {
            Some(mark) => *mark,
            None => false,
        }
    }

    // Adds a net, if there is such a net.
    fn add(&mut self, net: u32) -> Result<(), AllocError> {
        if let Some(mark) = self.marks.get_mut(net as usize)
            && !*mark
        {
            *mark = true;
            self.nets.push(net)?;
        }
        Ok(())
    }

    /// Makes it the cone of no line.
    pub fn clear(&mut self) {
        for net in &self.nets {
            if let Some(mark) = self.marks.get_mut(*net as usize) {
                *mark = false;
            }
        }
        self.nets.clear();
    }

    // Adds the nets whose gates read a net.
    fn spread(&mut self, wiring: &Wiring, net: u32) -> Result<(), AllocError> {
        for reader in wiring.readers(net) {
            self.add(*reader)?;
        }
        Ok(())
    }

    // Adds the nets of the flip-flops that take a net.
    fn spread_on(&mut self, wiring: &Wiring, net: u32) -> Result<(), AllocError> {
        for dff in wiring.latches(net) {
            self.add(wiring.dff_net(*dff))?;
        }
        Ok(())
    }

    /// Makes it the cone of a line, in one frame or, where `frames`, in any number. A data pin changes nothing in its frame.
    ///
    /// # Errors
    /// Out of memory.
    pub fn find(&mut self, wiring: &Wiring, line: Line, frames: bool) -> Result<(), AllocError> {
        self.clear();
        match line {
            Line::Net(net) | Line::Pin { net, .. } => self.add(net)?,
            Line::Data { dff } => {
                if frames {
                    self.add(wiring.dff_net(dff))?;
                }
            }
        }
        for at in 0..wiring.nets() {
            let Some(net) = self.nets.get(at) else {
                break;
            };
            let net = *net;
            self.spread(wiring, net)?;
            if frames {
                self.spread_on(wiring, net)?;
            }
        }
        Ok(())
    }

    /// Makes it all nets.
    ///
    /// # Errors
    /// Out of memory.
    pub fn find_all(&mut self, wiring: &Wiring) -> Result<(), AllocError> {
        let nets = u32::try_from(wiring.nets()).unwrap_or(u32::MAX);
        for net in 0..nets {
            self.add(net)?;
        }
        Ok(())
    }
}
