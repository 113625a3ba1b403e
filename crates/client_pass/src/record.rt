use crate::client_line::ClientLine;
use endorser_core::CellLine;
use statement::{Config, Member};
use std::marker::Model;

/// The record of a run: the config of view 0, who is genuine, the call list of each endorser in the order of
/// the roster, and the lines of each client.
#[derive(Debug, Drop)]
pub struct Record {
    pub genesis: Config,
    pub roster: Vec<Member>,
    pub cells: Vec<Vec<CellLine>>,
    pub passes: Vec<Vec<ClientLine>>,
}

impl Model for Record {
    ghost use Rattle.std.specs.Prelude.{map, vec_items};
    ghost use Rattle.client_pass.specs.Record.{Record};

    ghost Value = { Record };

    ghost view = { λ made. record { genesis = made.genesis; roster = made.roster.items; cells = map vec_items made.cells.items; passes = map vec_items made.passes.items } };
}
