// No code: the theorems that a reader comes for, each stated in a file of specs/ named after it and proved in proofs/.
// Demand 1: ExactAll, over Exact and ExactCalls; Unwritable, what 27 covers. Demand 2: Inversion and LaidOut, which packets are accepted;
// Plain, RoundTrip, Rewrite, SteppedOver, Examples, WrongBenches; AudioSent, what is sent of a packet; of the quality of a level: Tenths, Steps.
// Demand 3: Apart, where to start; LessonsSeen, its exceptions; Undisturbed, what a teacher can quote of it.
// The bench: Kept, what it keeps through every call; AirKept, that its air is right in the record, and AnswersStay, that this changes no
// answer; SeatAfter, what one call does to one seat; TicksAddUp, that ticks may be merged; OneDifference, what then is not told;
// AsSingles, that a tick with its reports is a tick and single reports; Room, that 208 bytes are always enough for it.
// Of a radio whose main and standby share an address: SharedRadio. Of packets counted: Accounts, that a seat's totals are what its
// history says; TotalsBound, where 33 comes. DueAtLeastOnce, that a seat which stays open is due within its period.
// The code: StepOfCode and BothWays, its calls, readers and writers do as said; Tight, its promises leave one answer;
// AsksNothing, they ask nothing of a caller; Walked, the same of `relay`, whose result holds a part of what is lent.
// Second witnesses, which cite no definition that they judge: of packets LaidOut, Unreadable, FieldsRead, EachRefusal; of calls PacketTells,
// Limits, SideMoves, EventsSet, SilenceAndDue, KeyingsInOrder, BeganFirst, OnTheAir, ReportTells, AudioSent, Accounts; of buffers BuffersStay; of
// what demand 3 compares AtMost; of the code's parameters CallWidths. The lower crates have theirs in specs/InWords.

#![tactic(auto)]
