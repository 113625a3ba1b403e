ghost use Rattle.std.specs.Prelude.{◌≡◌, ◌<◌, ◌+◌, ℕ, List, Some, if◌then◌else◌, OnOk};
ghost use Rattle.std.specs.Option.{option_map};
ghost use Rattle.std.specs.Str.{bytes_eq};
ghost use Rattle.fault_script.specs.declared.standing.Standing.TheVariants.{Unbegun};
ghost use Rattle.fault_script.specs.Kept.{AreBefore, as_closed, at, standing_in};
ghost use Rattle.fault_script.specs.Operations.{misuses, standing_after};
ghost use Rattle.fault_script.specs.Seen.{command_of};

use crate::line::Line;
use crate::standing::{Role, Standing};
use nim_base::NoMemory;
use std::alloc::Global;
use std::collections::BTreeMap;

/// An operation that was begun at a line, counted from 0, and whether a line closed it.
#[derive(Clone, Copy)]
pub(crate) struct Operation {
    begun: usize,
    role: Role,
    is_closed: bool,
}

/// The operations that were begun, by name, and the line of the last restart: it closed all that were
/// begun before, so that a restart costs no look at them.
#[derive(Drop)]
pub(crate) struct Operations {
    map: BTreeMap<Vec<u8>, Operation>,
    restarted: usize,
}

impl Operations {
    pub fn new(alloc: Global) -> Operations
        ensures stand { (name : List ℕ) → standing_in result name ≡ Unbegun }
        ensures before { AreBefore 0 result }
    {
        Operations {
            map: BTreeMap::new(alloc),
            restarted: 0,
        }
    }

    fn standing(&self, name: &[u8]) -> Standing
        ensures { result ≡ standing_in self.now name.now }
    {
        match self.map.get(name) {
            Some(operation) if operation.is_closed || operation.begun < self.restarted => {
                Standing::Closed(operation.role)
            }
            Some(operation) => Standing::Open(operation.role),
            None => Standing::Unbegun,
        }
    }

    /// Whether a line wants another standing of its operation.
    pub fn forbid(&self, line: &Line) -> bool
        ensures { result ≡ misuses (standing_in self.now) (command_of line.now) }
    {
        match line {
            Line::Begin { op, .. } => !self.standing(op.bytes()).is_unbegun(),
            Line::Step { op, .. } => !self.standing(op.bytes()).is_open(),
            Line::Finish { op } => !self.standing(op.bytes()).is_open(),
            Line::Retry { op } => !self.standing(op.bytes()).is_closed_of_client(),
            Line::Offer { op, .. } => !self.standing(op.bytes()).is_open_latest(),
            Line::Forge { op, .. } => !self.standing(op.bytes()).is_open_latest(),
            _ => false,
        }
    }

    fn set(&mut self, alloc: Global, name: &[u8], operation: Operation) -> Result<(), NoMemory>
        ensures map { OnOk result ((other : List ℕ) → at self.new other
            ≡ (if bytes_eq other name.now then Some operation else at self.old other)) }
        ensures restarted { self.new.restarted ≡ self.old.restarted }
    {
        let _ = self.map.insert(Vec::from_slice(alloc, name)?, operation)?;
        Ok(())
    }

    fn close(&mut self, alloc: Global, name: &[u8]) -> Result<(), NoMemory>
        ensures map { OnOk result ((other : List ℕ) → at self.new other
            ≡ (if bytes_eq other name.now then option_map as_closed (at self.old other) else at self.old other)) }
        ensures restarted { self.new.restarted ≡ self.old.restarted }
    {
        if let Some(operation) = self.map.get(name) {
            let closed = Operation {
                begun: operation.begun,
                role: operation.role,
                is_closed: true,
            };
            self.set(alloc, name, closed)?;
        }
        Ok(())
    }

    /// Notes what a line does, which stands at a place, counted from 0.
    pub fn note(&mut self, alloc: Global, line: &Line, place: usize) -> Result<(), NoMemory>
        requires { AreBefore place self.old }
        ensures stand { OnOk result ((name : List ℕ) → standing_in self.new name
            ≡ standing_after name (standing_in self.old name) (command_of line.now)) }
        ensures before { OnOk result (AreBefore (place + 1) self.new) }
    {
        match line {
            Line::Begin { op, act } => {
                let opened = Operation {
                    begun: place,
                    role: act.role(),
                    is_closed: false,
                };
                self.set(alloc, op.bytes(), opened)?;
            }
            Line::Finish { op } => self.close(alloc, op.bytes())?,
            Line::Offer { op, .. } => self.close(alloc, op.bytes())?,
            Line::Forge { op, .. } => self.close(alloc, op.bytes())?,
            Line::Restart => self.restarted = place,
            _ => {}
        }
        Ok(())
    }
}
