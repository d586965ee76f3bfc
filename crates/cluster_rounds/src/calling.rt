//! What clients ask of their agents.
ghost use Rattle.std.specs.Prelude.{OnOk, OnErr};
ghost use Rattle.client_agent.specs.Steps.{HasWorkers};
ghost use Rattle.cluster_rounds.specs.Wild.{StandsOf, KeepsWild, always};
ghost use Rattle.cluster_rounds.specs.Worlds.{Does, any_state};
ghost use Rattle.cluster_rounds.specs.Broken.{BreaksAlone};
ghost use Rattle.cluster_rounds.specs.Delivered.{IsCaller, asked_by, dispatched_by};

use crate::{Cluster, Serving};
use ais_values::Seq;
use callback_dispatch::Gate;
use calls::Ask;
use client_agent::How;
use std::alloc::{AllocError, Global};
use std::sync::Wait;
use std::thread::Threads;

/// A client asks for a call.
pub fn ask<R, S: Serving>(
    rt: &R,
    alloc: Global,
    world: &mut Cluster<S>,
    lines: &mut Vec<Seq<u8>>,
    client: u16,
    asked: &Ask,
) -> Result<(), AllocError>
    requires state { StandsOf S.kit any_state always world.old }
    requires caller { IsCaller client }
    ensures ok { OnOk result (Does S.kit (asked_by S.kit client asked.now) world.old world.new
        lines.old.items lines.new.items) }
    ensures err { OnErr result (BreaksAlone S.kit world.old world.new) }
    ensures wild { OnOk result (KeepsWild S.kit always world.old world.new) }
{
    cluster_clients::ask(
        rt,
        alloc,
        &mut world.net,
        &mut world.agents,
        lines,
        world.callbacks,
        client,
        asked,
    )
}

/// Callbacks of a client are handed out, by workers that pass the gate.
pub fn dispatch<R: Threads + Wait + Sync, S: Serving, G: Gate>(
    rt: &R,
    alloc: Global,
    world: &mut Cluster<S>,
    lines: &mut Vec<Seq<u8>>,
    client: u16,
    how: How,
    gate: &G,
) -> Result<(), AllocError>
    requires workers { HasWorkers how }
    ensures ok { OnOk result (Does S.kit (dispatched_by S.kit how client) world.old world.new
        lines.old.items lines.new.items) }
    ensures err { OnErr result (BreaksAlone S.kit world.old world.new) }
    ensures wild { OnOk result (KeepsWild S.kit always world.old world.new) }
{
    cluster_clients::dispatch(rt, alloc, &mut world.agents, lines, client, how, gate)
}
