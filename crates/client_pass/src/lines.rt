ghost use Rattle.std.specs.Prelude.{◌≡◌, ◌↔◌, ◌+◌, ◌-◌, ◌<◌, ◌≤◌, ◌++◌, ◌∷◌, [], length, Some, IsTrue, IfSome, OnOk, vec_len, vec_capacity};
ghost use Rattle.stamp_clock.specs.Stamps.{times};
ghost use Rattle.client_pass.specs.Act.{act_of, line, IsWithin};
ghost use Rattle.client_pass.specs.Lines.{marked};
ghost use Rattle.client_pass.specs.ClientList.{answered, answered_by, IsAnswered};

use crate::client_act::ClientAct;
use crate::client_line::ClientLine;
use nim_base::NoMemory;
use std::alloc::Global;
use std::marker::Model;

/// The lines of a client, and a mark for each of them that tells whether it is a draw that has its reply. So
/// no look-up goes through the lines.
#[derive(Drop)]
pub(crate) struct Lines {
    lines: Vec<ClientLine>,
    marks: Vec<bool>,
    room: usize,
}

impl Model for Lines {
    ghost use Rattle.std.specs.Prelude.{◌+◌, ◌≤◌, vec_len, vec_capacity};
    ghost use Rattle.client_pass.specs.Lines.{Lines, AreMarked};

    ghost Value = { Lines };

    ghost view = { λ kept. record { lines = kept.lines.items; room = kept.room } };

    ghost invariant = { λ kept. AreMarked kept.lines.items kept.marks.items
        × (vec_len kept.lines + kept.room ≤ vec_capacity kept.lines)
        × (vec_len kept.marks + kept.room ≤ vec_capacity kept.marks) };
}

impl Lines {
    pub(crate) fn new(alloc: Global) -> Lines
        ensures { result.lines ≡ [] }
    {
        Lines {
            lines: Vec::new(alloc),
            marks: Vec::new(alloc),
            room: 0,
        }
    }

    /// The number of the line to come.
    pub(crate) fn next(&self) -> u64
        ensures number { result ≡ length self.now.lines }
        ensures open { times result (answered self.now.lines) ≡ 0 }
    {
        self.lines.len() as u64
    }

    /// Takes the memory of one line.
    pub(crate) fn reserve(&mut self) -> Result<(), NoMemory>
        ensures room { OnOk result (0 < self.new.room) }
        ensures lines { self.new.lines ≡ self.old.lines }
    {
        self.lines.reserve(1)?;
        self.marks.reserve(1)?;
        self.room = 1;
        Ok(())
    }

    /// Whether the line is a draw that has its reply.
    pub(crate) fn is_answered(&self, draw: u64) -> bool
        ensures { IsTrue result ↔ IsAnswered self.now.lines draw }
    {
        let place = draw as usize;
        place < self.marks.len() && self.marks[place]
    }

    /// Adds a line at the end, for which there is room.
    pub(crate) fn add(&mut self, stamp: u64, act: ClientAct)
        requires room { 0 < self.old.room }
        requires within { IsWithin act }
        requires open { IfSome (answered_by (act_of act)) (λ draw. (draw < length self.old.lines) × (times draw (answered self.old.lines) ≡ 0)) }
        ensures { self.new.lines ≡ self.old.lines ++ line stamp (act_of act) ∷ [] }
    {
        mark(&mut self.marks, answered_by(&act));
        self.room -= 1;
        self.marks.push_reserved(false);
        self.lines.push_reserved(ClientLine { stamp, act });
    }

    pub(crate) fn as_slice(&self) -> &[ClientLine]
        ensures { result.now ≡ self.now.lines }
    {
        self.lines.as_slice()
    }

    pub(crate) fn into_vec(self) -> Vec<ClientLine>
        ensures { result.items ≡ self.lines }
    {
        let Lines {
            lines,
            marks: _,
            room: _,
        } = self;
        lines
    }
}

/// Sets the mark of a draw, if there is one.
fn mark(marks: &mut Vec<bool>, draw: Option<u64>)
    requires { IfSome draw (λ draw. draw < vec_len marks.old) }
    ensures marked { marks.new.items ≡ marked marks.old.items draw }
    ensures len { vec_len marks.new ≡ vec_len marks.old }
    ensures capacity { vec_capacity marks.new ≡ vec_capacity marks.old }
{
    if let Some(draw) = draw {
        marks[draw as usize] = true;
    }
}

/// The draw whose reply was accepted.
fn answered_by(act: &ClientAct) -> Option<u64>
    ensures { result ≡ answered_by (act_of act.now) }
{
    match act {
        ClientAct::Append {
            draw,
            reply: _,
            fault: None,
        } => Some(*draw),
        ClientAct::Latest {
            draw,
            handle: _,
            reply: _,
            fault: None,
        } => Some(*draw),
        _ => None,
    }
}
