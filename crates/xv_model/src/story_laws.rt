//! The story of a journal agrees with its run: each law is the contract of a function that does nothing.

ghost use Rattle.std.specs.Prelude.{◌≡◌, ℕ, nat_lt, true, false, List, [], ◌∷◌, map, take, Some, None};
ghost use Rattle.xv_model.specs.Job.{Job};
ghost use Rattle.xv_model.specs.View.{number, disk, is_switched};
ghost use Rattle.xv_model.specs.Step.{Entry, run, is_run, play};
ghost use Rattle.xv_model.specs.Story.{story_of, queue, was_written};
ghost use Rattle.xv_model.specs.Worked.TwoGuestsQueue.{two_guests_queue_job, two_guests_queue_events};
ghost use Rattle.xv_model.specs.Worked.GuestOwnFault.{guest_own_fault_job, guest_own_fault_events};
ghost use Rattle.xv_model.specs.Worked.FailedDestination.{failed_destination_job, failed_destination_events};
ghost use Rattle.xv_model.specs.Worked.AfterTheSwitch.{after_the_switch_job, after_the_switch_events};
ghost use Rattle.xv_base.specs.declared.operation.Outcome.TheVariants.{Done, Faulted};

/// What a run's answers tell is what the view that it ends in has.
pub fn stories_agree_with_runs()
    ensures history { (job : Job) (journal : List Entry) → is_run job journal ≡ true → (story_of job journal).history ≡ (run job journal).history }
    ensures queues { (job : Job) (journal : List Entry) (d : ℕ) → is_run job journal ≡ true → queue (story_of job journal) d ≡ map (λ w. w.guest.0) (disk (run job journal) d).queue }
    ensures written { (job : Job) (journal : List Entry) (unit : ℕ) → is_run job journal ≡ true → was_written (story_of job journal) unit ≡ nat_lt 0 (number (run job journal).hold.applied unit) }
    ensures stun { (job : Job) (journal : List Entry) → is_run job journal ≡ true → (story_of job journal).stun ≡ (run job journal).stun }
    ensures switched { (job : Job) (journal : List Entry) → is_run job journal ≡ true → (story_of job journal).switched ≡ is_switched (run job journal).phase }
{}

/// Two guests wait for one disk, and their writes end in the order of joining.
pub fn story_of_two_guests_queue()
    ensures waiting { story_of two_guests_queue_job (play two_guests_queue_job (take 4 two_guests_queue_events)) ≡ record { history = []; queues = ((1 ∷ 0 ∷ []) ∷ []); written = (false ∷ false ∷ false ∷ false ∷ false ∷ []); stun = None; switched = false } }
    ensures ended { story_of two_guests_queue_job (play two_guests_queue_job two_guests_queue_events) ≡ record { history = (record { guest = record { 0 = 1 }; outcome = Done } ∷ record { guest = record { 0 = 0 }; outcome = Done } ∷ []); queues = ([] ∷ []); written = (false ∷ false ∷ false ∷ false ∷ false ∷ []); stun = None; switched = false } }
{}

/// A guest's own write faults, and its read is done.
pub fn story_of_guest_own_fault()
    ensures { story_of guest_own_fault_job (play guest_own_fault_job guest_own_fault_events) ≡ record { history = (record { guest = record { 0 = 0 }; outcome = Faulted } ∷ record { guest = record { 0 = 0 }; outcome = Done } ∷ []); queues = ([] ∷ []); written = (false ∷ false ∷ false ∷ false ∷ false ∷ []); stun = None; switched = false } }
{}

/// A failed write at the destination writes no unit, and the guest that waited ends its write.
pub fn story_of_failed_destination()
    ensures { story_of failed_destination_job (play failed_destination_job failed_destination_events) ≡ record { history = (record { guest = record { 0 = 0 }; outcome = Done } ∷ []); queues = ([] ∷ []); written = (false ∷ false ∷ false ∷ false ∷ false ∷ []); stun = None; switched = false } }
{}

/// Both units are written, the guest is stopped after one operation and goes on at the destination.
pub fn story_of_after_the_switch()
    ensures { story_of after_the_switch_job (play after_the_switch_job after_the_switch_events) ≡ record { history = (record { guest = record { 0 = 0 }; outcome = Done } ∷ record { guest = record { 0 = 0 }; outcome = Done } ∷ record { guest = record { 0 = 0 }; outcome = Done } ∷ record { guest = record { 0 = 0 }; outcome = Done } ∷ []); queues = ([] ∷ []); written = (true ∷ true ∷ []); stun = Some 1; switched = true } }
{}
