//! Pieces one after another.

ghost use Rattle.h5w_step_laws.specs.Plans.{PlansJoin, FlushFrom, PlanLeads, FlushLeads};

/// A plan and one that begins where it ends are a plan.
pub fn plans_join()
    ensures { PlansJoin }
{}

/// A plan and one piece more are a flush.
pub fn flush_from()
    ensures { FlushFrom }
{}

/// The image after a plan is the file at the moment to which it leads.
pub fn plan_leads()
    ensures { PlanLeads }
{}

/// The image after a flush is the file at the moment to which it leads.
pub fn flush_leads()
    ensures { FlushLeads }
{}
