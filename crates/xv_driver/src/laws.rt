//! Laws of the driver's runs, each as the contract of a function that does nothing.

ghost use Rattle.std.specs.Prelude.{◌≡◌, ℕ, true, List, [], None};
ghost use Rattle.xv_base.specs.declared.event.Phase.TheVariants.{Switched};
ghost use Rattle.xv_model.specs.Job.{Job};
ghost use Rattle.xv_model.specs.Driver.{driven};
ghost use Rattle.xv_model.specs.Step.{Entry, run, is_faithful};
ghost use Rattle.xv_model.specs.Work.{is_finished};
ghost use Rattle.xv_job.specs.Written.{job_of};
ghost use Rattle.xv_core.specs.Seen.{Seen, view_of};
ghost use Rattle.xv_core.specs.Keeping.{IsKept};
ghost use Rattle.xv_driver.specs.Driven.{AreDriven};

/// A run that the driver made from an empty journal to the end, its calls failing exactly as planned, is the job's driven run.
pub fn finished_runs_are_driven()
    ensures { (m n : Seen) (k : ℕ) → AreDriven k m n → m.journal ≡ [] → IsKept n → is_faithful (job_of n.job) n.journal ≡ true → is_finished (job_of n.job) (view_of n) ≡ true → n.journal ≡ driven (job_of n.job) }
{}

/// A run of a job without a cancel number and without planned faults, whose calls fail exactly as planned, ends switched over
/// where it ends.
pub fn driven_without_faults_switches()
    ensures { (job : Job) (journal : List Entry) → job.config.cancel ≡ None → job.faults ≡ [] → is_faithful job journal ≡ true → is_finished job (run job journal) ≡ true → (run job journal).phase ≡ Switched }
{}
