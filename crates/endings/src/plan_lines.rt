// The lines that say what is wrong with a plan.
ghost use Rattle.std.specs.Prelude.{◌≡◌, ◌++◌, codes};
ghost use Rattle.endings.specs.Texts.{fault_text, grammar_text, plan_text};

use crate::endings::BadPlan;
use crate::parts::{Line, address_line, number_line, text_line};
use exec_image::PlanFault;
use plan_core::PlanRefusal;

/// The line of a plan that is refused.
pub fn plan_line(why: BadPlan) -> Line
    ensures { result.bytes ≡ codes "halo: plan: " ++ plan_text why ++ codes "\n" }
{
    match why {
        BadPlan::TooLong => text_line("halo: plan: ", "too long"),
        BadPlan::Text(why) => grammar_line(why),
        BadPlan::Misfit(why) => misfit_line(why),
    }
}

fn grammar_line(why: PlanRefusal) -> Line
    ensures { result.bytes ≡ codes "halo: plan: " ++ grammar_text why ++ codes "\n" }
{
    match why {
        PlanRefusal::Line(n) => number_line("halo: plan: line ", n, "\n"),
        PlanRefusal::TooMany(n) => number_line("halo: plan: too many at line ", n, "\n"),
        PlanRefusal::Memory => text_line("halo: plan: ", "out of memory"),
    }
}

fn misfit_line(why: PlanFault) -> Line
    ensures { result.bytes ≡ codes "halo: plan: " ++ fault_text why ++ codes "\n" }
{
    match why {
        PlanFault::PlanSite(site) => address_line("halo: plan: site ", site, "\n"),
        PlanFault::PlanBit(bit) => number_line("halo: plan: bit ", u64::from(bit), "\n"),
        PlanFault::PlanRow(i) => number_line("halo: plan: row ", u64::from(i), "\n"),
        PlanFault::AreaTooLarge => text_line("halo: plan: ", "area"),
        PlanFault::SiteOutOfReach(site) => {
            address_line("halo: plan: site ", site, " out of reach\n")
        }
    }
}
