use crate::client_act::ClientAct;
use std::marker::Model;

/// What a client did, and its stamp. The entry of a draw is within the limits of entries.
#[derive(Debug, Drop)]
pub struct ClientLine {
    pub stamp: u64,
    pub act: ClientAct,
}

impl Model for ClientLine {
    ghost use Rattle.client_pass.specs.Act.{Line, act_of, IsWithin};

    ghost Value = { Line };

    ghost view = { λ line. record { stamp = line.stamp; act = act_of line.act } };

    ghost invariant = { λ line. IsWithin line.act };
}
