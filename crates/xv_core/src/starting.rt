//! How a migration begins.

ghost use Rattle.std.specs.Prelude.{◌≡◌, length, map, All, IfOk, IfErr, vec_capacity};
ghost use Rattle.xv_job.specs.Written.{job_of};
ghost use Rattle.xv_source.specs.Limits.{fresh as fresh_source};
ghost use Rattle.xv_dest.specs.Half.{fresh as fresh_dest};
ghost use Rattle.xv_core.specs.Fresh.{IsReady, AreFresh};
ghost use Rattle.xv_core.specs.State.{on_source, on_dest, on_wire, on_back};
ghost use Rattle.xv_core.specs.Beginning.{IsDeviceFor, BeginsWithJob, IsWireFor, AreFit, stream_room, back_room, fresh_wire, begun};

use crate::migration::Migration;
use crate::rooms::Rooms;
use std::alloc::Global;
use std::marker::Model;
use xv_base::Phase;
use xv_dest::DestHalf;
use xv_device::UnitDevice;
use xv_job::Job;
use xv_source::SourceHalf;
use xv_streams::{BackWire, Streams};
use xv_wire::Wire;

/// What a migration is made of: its job, the device that the guests leave and the one that they go to, a wire for each
/// stream, and the wire back.
#[derive(Drop)]
pub struct Parts<S: UnitDevice, T: UnitDevice, W: Wire> {
    pub job: Job,
    pub source: S,
    pub dest: T,
    pub wires: Vec<W>,
    pub back: W,
}

impl<S: UnitDevice, T: UnitDevice, W: Wire> Model for Parts<S, T, W> {
    ghost use Rattle.xv_core.specs.PartsSeen.{PartsSeen};

    ghost Value = { PartsSeen W };

    ghost view = { λ p. record { job = p.job; source = record { told = S.told p.source; faults = S.faults p.source }; dest = record { told = T.told p.dest; faults = T.faults p.dest }; wires = p.wires.items; back = p.back } };
}

impl<S: UnitDevice, T: UnitDevice, W: Wire> Migration<S, T, W> {
    /// A migration of these parts, in which nothing has happened. All memory that its run needs is taken here, and no call of
    /// a device or a wire is made.
    /// Errors: want of memory, which hands all back.
    pub fn start(alloc: Global, parts: Parts<S, T, W>) -> Result<Migration<S, T, W>, Parts<S, T, W>>
        requires { AreFit W.told parts }
        ensures begun { IfOk result (λ migration. migration ≡ begun parts.job parts.source parts.dest (map (λ w. fresh_wire (W.told w) (W.faults w)) parts.wires) (fresh_wire (W.told parts.back) (W.faults parts.back))) }
        ensures again { IfErr result (λ again. again ≡ parts) }
    {
        Migration::with_parts(
            alloc,
            parts.job,
            parts.source,
            parts.dest,
            parts.wires,
            parts.back,
        )
    }

    /// The same, of the parts one by one.
    fn with_parts(
        alloc: Global,
        job: Job,
        source: S,
        dest: T,
        wires: Vec<W>,
        back: W,
    ) -> Result<Migration<S, T, W>, Parts<S, T, W>>
        requires source { IsDeviceFor (job_of job) (S.told source) }
        requires first { BeginsWithJob (job_of job) (S.told source) }
        requires dest { IsDeviceFor (job_of job) (T.told dest) }
        requires streams { length wires.items ≡ job.config.streams }
        requires wires { All (λ w. IsWireFor (stream_room (job_of job)) (W.told w)) wires.items }
        requires back { IsWireFor (back_room (job_of job)) (W.told back) }
        ensures begun { IfOk result (λ migration. migration ≡ begun job (record { told = S.told source; faults = S.faults source }) (record { told = T.told dest; faults = T.faults dest }) (map (λ w. fresh_wire (W.told w) (W.faults w)) wires.items) (fresh_wire (W.told back) (W.faults back))) }
        ensures job { IfErr result (λ parts. parts.job ≡ job) }
        ensures source { IfErr result (λ parts. parts.source ≡ record { told = S.told source; faults = S.faults source }) }
        ensures dest { IfErr result (λ parts. parts.dest ≡ record { told = T.told dest; faults = T.faults dest }) }
        ensures wires { IfErr result (λ parts. parts.wires ≡ wires.items) }
        ensures back { IfErr result (λ parts. parts.back ≡ back) }
    {
        let Some(rooms) = Rooms::new(alloc, &job) else {
            return Err(Parts {
                job,
                source,
                dest,
                wires,
                back,
            });
        };
        match SourceHalf::new(alloc, &job.layout, &job.config, job.guests(), source) {
            Ok(source) => Migration::with_source(alloc, job, rooms, source, dest, wires, back),
            Err(source) => Err(Parts {
                job,
                source,
                dest,
                wires,
                back,
            }),
        }
    }

    /// The same, once the source's half is there.
    fn with_source(
        alloc: Global,
        job: Job,
        rooms: Rooms,
        source: SourceHalf<S>,
        dest: T,
        wires: Vec<W>,
        back: W,
    ) -> Result<Migration<S, T, W>, Parts<S, T, W>>
        requires rooms { IsReady job rooms.history rooms.journal.items rooms.reads.items (vec_capacity rooms.journal) (vec_capacity rooms.reads) (length rooms.read.items) }
        requires half { source ≡ fresh_source job.shape job.config source.told source.faults }
        requires source { IsDeviceFor (job_of job) source.told }
        requires first { BeginsWithJob (job_of job) source.told }
        requires dest { IsDeviceFor (job_of job) (T.told dest) }
        requires streams { length wires.items ≡ job.config.streams }
        requires wires { All (λ w. IsWireFor (stream_room (job_of job)) (W.told w)) wires.items }
        requires back { IsWireFor (back_room (job_of job)) (W.told back) }
        ensures begun { IfOk result (λ migration. migration ≡ begun job (on_source source) (record { told = T.told dest; faults = T.faults dest }) (map (λ w. fresh_wire (W.told w) (W.faults w)) wires.items) (fresh_wire (W.told back) (W.faults back))) }
        ensures job { IfErr result (λ parts. parts.job ≡ job) }
        ensures source { IfErr result (λ parts. parts.source ≡ on_source source) }
        ensures dest { IfErr result (λ parts. parts.dest ≡ record { told = T.told dest; faults = T.faults dest }) }
        ensures wires { IfErr result (λ parts. parts.wires ≡ wires.items) }
        ensures back { IfErr result (λ parts. parts.back ≡ back) }
    {
        match DestHalf::new(alloc, &job.layout, &job.config, dest) {
            Ok(dest) => Migration::with_halves(alloc, job, rooms, source, dest, wires, back),
            Err(dest) => Err(Parts {
                job,
                source: source.into_device(),
                dest,
                wires,
                back,
            }),
        }
    }

    /// The same, once both halves are there.
    fn with_halves(
        alloc: Global,
        job: Job,
        rooms: Rooms,
        source: SourceHalf<S>,
        dest: DestHalf<T>,
        wires: Vec<W>,
        back: W,
    ) -> Result<Migration<S, T, W>, Parts<S, T, W>>
        requires rooms { IsReady job rooms.history rooms.journal.items rooms.reads.items (vec_capacity rooms.journal) (vec_capacity rooms.reads) (length rooms.read.items) }
        requires half { source ≡ fresh_source job.shape job.config source.told source.faults }
        requires source { IsDeviceFor (job_of job) source.told }
        requires first { BeginsWithJob (job_of job) source.told }
        requires other_half { dest ≡ fresh_dest job.shape job.config.credit dest.told dest.faults }
        requires dest { IsDeviceFor (job_of job) dest.told }
        requires streams { length wires.items ≡ job.config.streams }
        requires wires { All (λ w. IsWireFor (stream_room (job_of job)) (W.told w)) wires.items }
        requires back { IsWireFor (back_room (job_of job)) (W.told back) }
        ensures begun { IfOk result (λ migration. migration ≡ begun job (on_source source) (on_dest dest) (map (λ w. fresh_wire (W.told w) (W.faults w)) wires.items) (fresh_wire (W.told back) (W.faults back))) }
        ensures job { IfErr result (λ parts. parts.job ≡ job) }
        ensures source { IfErr result (λ parts. parts.source ≡ on_source source) }
        ensures dest { IfErr result (λ parts. parts.dest ≡ on_dest dest) }
        ensures wires { IfErr result (λ parts. parts.wires ≡ wires.items) }
        ensures back { IfErr result (λ parts. parts.back ≡ back) }
    {
        match Streams::new(alloc, wires, job.layout, job.format) {
            Ok(streams) => Ok(Migration::join(
                job,
                rooms,
                source,
                dest,
                streams,
                BackWire::new(back),
            )),
            Err(wires) => Err(Parts {
                job,
                source: source.into_device(),
                dest: dest.into_device(),
                wires,
                back,
            }),
        }
    }

    /// The migration of these parts, in which nothing has happened.
    fn join(
        job: Job,
        rooms: Rooms,
        source: SourceHalf<S>,
        dest: DestHalf<T>,
        streams: Streams<W>,
        back: BackWire<W>,
    ) -> Migration<S, T, W>
        requires rooms { IsReady job rooms.history rooms.journal.items rooms.reads.items (vec_capacity rooms.journal) (vec_capacity rooms.reads) (length rooms.read.items) }
        requires state { AreFresh job source dest streams back }
        ensures { result ≡ begun job (on_source source) (on_dest dest) (map on_wire streams.lanes) (on_back back) }
    {
        Migration {
            job,
            journal: rooms.journal,
            history: rooms.history,
            phase: Phase::Running,
            stun: None,
            source,
            dest,
            streams,
            back,
            reads: rooms.reads,
            read: rooms.read,
        }
    }
}
