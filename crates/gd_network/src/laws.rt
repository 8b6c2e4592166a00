//! What flows over a network say of schedules, of cuts and of prices. Each function is a law: its contract is the
//! statement.

ghost use Rattle.std.specs.Prelude.{◌≡◌, ◌<◌, ◌≤◌, ℕ, ℤ, Bool, false, List, length, get_or};
ghost use Rattle.gd_scale.specs.Sum.{sum_nat};
ghost use Rattle.gd_scale.specs.Scale.{multiple, total_below};
ghost use Rattle.gd_scale.specs.Laws.{less};
ghost use Rattle.gd_rules.specs.Question.{Question, element, line, crossing};
ghost use Rattle.gd_rules.specs.Schedule.{IsAllowed};
ghost use Rattle.gd_rules.specs.Spread.{IsBest};
ghost use Rattle.gd_rules.specs.Tree.{HasLines, IsLine};
ghost use Rattle.gd_rules.specs.Priced.{IsPriced};
ghost use Rattle.gd_scale.specs.Sizes.{whole};
ghost use Rattle.gd_rules.specs.Tariff.{tariff, tariff_unit};
ghost use Rattle.gd_rules.specs.Cut.{Side, IsCut};
ghost use Rattle.gd_system.specs.Pipeline.{Pipeline};
ghost use Rattle.gd_question.specs.Placing.{IsPlaced};
ghost use Rattle.gd_network.specs.Arcs.{Net, IsNetwork, most_part, least_part};
ghost use Rattle.gd_question.specs.Nodes.{AllBring, start, stop, end_node};
ghost use Rattle.gd_network.specs.Flow.{part_of, IsCirculation, IsWithin, IsFlowOf, IsScheduleOf, IsSideOf, IsEdge, IsShort, IsOrdered, side_of};
ghost use Rattle.gd_network.specs.Potential.{IsGains, IsStill, ArePrices};

/// A line's ten arcs together have its ceiling, its floor and its quantity.
pub fn ten_sums()
    ensures most { (ceiling : ℕ) → sum_nat 10 (λ j. most_part ceiling j) ≡ ceiling }
    ensures least { (ceiling floor : ℕ) → floor ≤ ceiling
        → sum_nat 10 (λ j. least_part ceiling floor j) ≡ floor }
    ensures parts { (ceiling n : ℕ) → sum_nat 10 (λ j. part_of ceiling n j) ≡ n }
{}

/// What potentials rise over all that a line crosses is what they rise from its origin to its destination.
pub fn lines_rise()
    ensures numbers { (q : Question) (i : ℕ) (label : ℕ → ℤ) → IsLine q (line q i)
        → total_below whole (length q.elements)
        (λ e. multiple whole (crossing q i e) (less whole (label (stop q e)) (label (start q e))))
        ≡ less whole (label (end_node (line q i).dest)) (label (end_node (line q i).origin)) }
    ensures worths { (q : Question) (i : ℕ) (label : ℕ → (ℕ → ℤ) × (ℕ → ℤ)) → IsLine q (line q i)
        → total_below tariff (length q.elements)
        (λ e. multiple tariff (crossing q i e) (less tariff (label (stop q e)) (label (start q e))))
        ≡ less tariff (label (end_node (line q i).dest)) (label (end_node (line q i).origin)) }
{}

/// Where a question's elements lie: segments join the first nodes, and points and pools come after them.
pub fn elements_bring()
    ensures { (pipeline : Pipeline) (q : Question) → IsPlaced pipeline q → (e : ℕ)
        → e < length q.elements → IsOrdered (length pipeline.tree) e (element q e) }
{}

/// Each question has its network, each schedule its flow, which has it back, and each flow within bounds its schedule.
pub fn all_there()
    ensures network { (q : Question) → (n : Net) × IsNetwork q n }
    ensures flow { (q : Question) (schedule : List ℕ) → (flow : List ℤ) × IsFlowOf q schedule flow }
    ensures back { (q : Question) (schedule : List ℕ) (flow : List ℤ)
        → length schedule ≡ length q.lines → IsFlowOf q schedule flow
        → IsScheduleOf q flow schedule }
    ensures schedule { (q : Question) (n : Net) (flow : List ℤ) → IsNetwork q n → IsWithin n flow
        → (schedule : List ℕ) × IsScheduleOf q flow schedule }
{}

/// The flow of a schedule balances, and that of an allowed one is within its bounds.
pub fn schedules_flow()
    ensures balances { (q : Question) (n : Net) (schedule : List ℕ) (flow : List ℤ) → HasLines q
        → IsNetwork q n → IsFlowOf q schedule flow → IsCirculation n flow }
    ensures within { (q : Question) (n : Net) (schedule : List ℕ) (flow : List ℤ) → IsNetwork q n
        → IsFlowOf q schedule flow → IsAllowed q schedule → IsWithin n flow }
{}

/// What the lines' arcs of a flow that balances within its bounds carry is an allowed schedule.
pub fn flows_schedule()
    ensures { (q : Question) (n : Net) (flow : List ℤ) (schedule : List ℕ) → HasLines q
        → AllBring q → IsNetwork q n → IsCirculation n flow → IsWithin n flow
        → IsScheduleOf q flow schedule → IsAllowed q schedule }
{}

/// A set of nodes that no step leaves, and that an arc leads into or out of which is short of a bound, is a cut.
pub fn reached_cut()
    ensures side { (q : Question) (s : ℕ) (marks : List Bool)
        → ((e : ℕ) → e < length q.elements → IsOrdered s e (element q e))
        → IsSideOf q (λ v. get_or marks v false) (side_of s marks) }
    ensures cut { (q : Question) (n : Net) (flow : List ℤ) (inside : ℕ → Bool) (side : Side) (j : ℕ)
        → HasLines q → IsNetwork q n → IsSideOf q inside side → IsCirculation n flow
        → IsEdge n flow inside → j < length n → IsShort n flow inside j → IsCut q side }
{}

/// Where no step gains, the potentials' falls are prices that show the flow's schedule best.
pub fn potentials_price()
    ensures priced { (q : Question) (n : Net) (flow : List ℤ) (schedule : List ℕ)
        (gain label : ℕ → (ℕ → ℤ) × (ℕ → ℤ)) (prices : List ((ℕ → ℤ) × (ℕ → ℤ))) → HasLines q
        → AllBring q → IsNetwork q n → IsCirculation n flow → IsWithin n flow
        → IsScheduleOf q flow schedule → IsGains tariff tariff_unit q gain
        → IsStill tariff n flow gain label → ArePrices tariff q label prices
        → IsPriced tariff tariff_unit q schedule prices }
    ensures best { (q : Question) (n : Net) (flow : List ℤ) (schedule : List ℕ)
        (gain label : ℕ → (ℕ → ℤ) × (ℕ → ℤ)) → HasLines q → AllBring q → IsNetwork q n
        → IsCirculation n flow → IsWithin n flow → IsScheduleOf q flow schedule
        → IsGains tariff tariff_unit q gain → IsStill tariff n flow gain label → IsBest q schedule }
{}
