//! The threads of a service.
ghost use denote.Param.Send.{IsSend};
ghost use Rattle.std.specs.Prelude.{◌≡◌, true};
ghost use Rattle.std.specs.List.{AllZip};
ghost use Rattle.s4serve.specs.Doors.{ReadsAt};
ghost use Rattle.s4serve.specs.Duties.{IsOwnDuty};

use crate::doors::watch_input;
use crate::service::{Service, Serving};
use crate::telling::Telling;
use crate::workers::work;
use door_files::Fifos;
use image_keeping::Keeper;
use own_stacks::spawn_with_stack;
use s4_types::Role;
use server::{Open, keep_moving, keep_up};
use serving::Clock;
use std::alloc::{AllocError, Global};
use std::marker::{Send, Sync};
use std::sync::{Arc, Wait};
use std::thread::Threads;
use std::time;

/// How many serve sessions of clients at once, and of administrators. Clients don't shut these out.
const CLIENT_WORKERS: usize = 16;

const ADMIN_WORKERS: usize = 4;

/// How many bytes of stack each thread of a service has.
const STACK_BYTES: usize = 512 << 10;

/// What a thread of a service does.
#[derive(Drop)]
enum Duty<I> {
    /// Cleans.
    Clean,
    /// Copies.
    Move,
    /// Serves sessions of a role.
    Serve(Role),
    /// Reads the door of this number.
    Watch { number: usize, input: I },
}

/// What the threads of a service are started with.
#[derive(Drop)]
pub struct Starting<'a, J: Serving, C: Clock, K: Keeper, R, D> {
    pub rt: &'a R,
    pub alloc: Global,
    pub service: &'a Arc<Service<J, C, K>, Global>,
    pub outside: &'a D,
}

impl<
    J: Serving + Send + Sync + 'static,
    C: Clock + Send + Drop + 'static,
    K: Keeper + Send + Drop + 'static,
    R: Threads + Wait + time::Clock + Copy + Send + Sync + Drop + 'static,
    D: Fifos + Telling + Copy + Send + Sync + Drop + 'static,
> Starting<'_, J, C, K, R, D> {
    /// Starts the threads of a service, which go on until the program ends: cleaner and copier, the
    /// workers, and those that read the doors, which come last. Sessions are served only from then
    /// on.
    ///
    /// AllocError where memory, or the system's threads, are too few.
    pub fn start_threads(&self, inputs: Vec<D::Input>) -> Result<(), AllocError>
        requires upkeep { J.has_upkeep ≡ true }
        // Each door's own input is read, in their order.
        requires inputs { AllZip (ReadsAt D.reads) J.doors inputs.items }
    {
        self.start(Duty::Clean)?;
        self.start(Duty::Move)?;
        self.start_workers(Role::Client, CLIENT_WORKERS)?;
        self.start_workers(Role::Admin, ADMIN_WORKERS)?;
        self.watch_doors(inputs)
    }

    /// Starts a thread for each door, the last one first.
    fn watch_doors(&self, inputs: Vec<D::Input>) -> Result<(), AllocError>
        requires upkeep { J.has_upkeep ≡ true }
        requires inputs { AllZip (ReadsAt D.reads) J.doors inputs.items }
    {
        let mut inputs = inputs;
        while let Some(input) = inputs.pop() {
            let number = inputs.len();
            self.start(Duty::Watch { number, input })?;
        }
        Ok(())
    }

    /// Starts as many threads that serve sessions of this role.
    fn start_workers(&self, role: Role, count: usize) -> Result<(), AllocError>
        requires upkeep { J.has_upkeep ≡ true }
    {
        for _ in 0..count {
            self.start(Duty::Serve(role))?;
        }
        Ok(())
    }

    /// Starts the thread of a duty.
    fn start(&self, duty: Duty<D::Input>) -> Result<(), AllocError>
        requires upkeep { J.has_upkeep ≡ true }
        requires own { IsOwnDuty D.reads J.doors duty }
    {
        let (own, alloc, outside) = (*self.rt, self.alloc, *self.outside);
        let theirs = Arc::try_clone(self.service)?;
        spawn_with_stack(
            self.rt,
            STACK_BYTES,
            move ||
                requires upkeep { J.has_upkeep ≡ true }
                requires own { IsOwnDuty D.reads J.doors duty }
                requires input { IsSend D.Input.row }
                requires output { IsSend D.Output.row }
            { perform(&own, alloc, &*theirs, &outside, duty) },
        )
    }
}

/// Does what a duty says, for as long as that goes on.
fn perform<J: Serving, C: Clock, K: Keeper + Drop, R: Wait + time::Clock, D: Fifos + Telling>(
    rt: &R,
    alloc: Global,
    service: &Service<J, C, K>,
    outside: &D,
    duty: Duty<D::Input>,
)
    requires upkeep { J.has_upkeep ≡ true }
    requires own { IsOwnDuty D.reads J.doors duty }
{
    match duty {
        Duty::Clean => {
            let _ = keep_up(rt, alloc, &service.drive, &service.pace, &Open);
        }
        Duty::Move => {
            let _ = keep_moving(rt, alloc, &service.drive, &service.pace, &Open);
        }
        Duty::Serve(role) => work(rt, alloc, service, outside, role),
        Duty::Watch { number, input } => watch_input(rt, alloc, service, outside, number, input),
    }
}
