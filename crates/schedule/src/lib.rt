// The theory of schedules, as laws: each function's contract is a theorem over histories and schedules, and its body computes nothing.
#![tactic(auto)]

ghost use Rattle.schedule.specs.Schedules.{LegalWithin};
ghost use Rattle.schedule.specs.Occupancy.{OccupancyIdentity};
ghost use Rattle.schedule.specs.Work.{WorkBalance, WorkConserved};
ghost use Rattle.schedule.specs.Sojourn.{SojournCounted};
ghost use Rattle.schedule.specs.Srpt.{SrptLegal, SrptFewest, SrptLeastTotal};
ghost use Rattle.schedule.specs.Orders.{FirstInFirstOut};
ghost use Rattle.schedule.specs.Computed.{ShortestChosen, SrptExists};
ghost use Rattle.schedule.specs.Examples.{Examples};

// A law: a legal schedule has one entry for each tick that ended, and gives no job more units than its size.
pub fn legal_within_sizes()
    ensures { LegalWithin }
{}

// A law: the occupancy total is the ticks that the jobs spent present, summed over the jobs, under any schedule.
pub fn occupancy_identity()
    ensures { OccupancyIdentity }
{}

// A law: under every legal schedule the unfinished work is the sizes that entered less the units done.
pub fn work_balance()
    ensures { WorkBalance }
{}

// A law: all work-conserving schedules of one history have the same unfinished work, at every point.
pub fn work_conserved()
    ensures { WorkConserved }
{}

// A law: the ticks that a job spent present are its sojourn once it is finished, and until then the clock less its arrival.
pub fn sojourn_counted()
    ensures { SojournCounted }
{}

// A law: SRPT has at no point more jobs present than any legal schedule of the same history.
pub fn srpt_keeps_fewest()
    ensures { SrptFewest }
{}

// A law: no legal schedule of the same history has a smaller occupancy total than SRPT.
pub fn srpt_least_total()
    ensures { SrptLeastTotal }
{}

// A law: an SRPT schedule is work-conserving, and a work-conserving schedule is legal.
pub fn srpt_is_legal()
    ensures { SrptLegal }
{}

// A law: under first come, first served, a job that entered earlier finishes no later than one that entered later.
pub fn first_in_first_out()
    ensures { FirstInFirstOut }
{}

// A law: the computed choice of SRPT is a present job with least remaining work, among equals the one with the smaller number.
pub fn shortest_chosen()
    ensures { ShortestChosen }
{}

// A law: every history has an SRPT schedule.
pub fn srpt_exists()
    ensures { SrptExists }
{}

// Worked examples: the figures that the definitions give for small histories, by computing.
pub fn examples()
    ensures { Examples }
{}
