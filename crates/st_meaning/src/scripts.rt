ghost use Rattle.std.specs.Prelude.{◌≡◌, [], ◌∷◌, codes};
ghost use Rattle.st_meaning.specs.Rows.{lines, printed_over};
ghost use Rattle.st_meaning.specs.Schemas.{tiny, diamond, notes, pets, club, staff, institute, rings};
ghost use Rattle.st_meaning.specs.Scripts.Diamonds;
ghost use Rattle.st_meaning.specs.Scripts.Texts;
ghost use Rattle.st_meaning.specs.Scripts.Uniques;
ghost use Rattle.st_meaning.specs.Scripts.References;
ghost use Rattle.st_meaning.specs.Scripts.Orders;
ghost use Rattle.st_meaning.specs.Scripts.Aborts;
ghost use Rattle.st_meaning.specs.Scripts.Variables;
ghost use Rattle.st_meaning.specs.Scripts.Finds;
ghost use Rattle.st_meaning.specs.Scripts.Ensures;
ghost use Rattle.st_meaning.specs.Scripts.Nulls;
ghost use Rattle.st_meaning.specs.Scripts.Names;
ghost use Rattle.st_meaning.specs.Scripts.Kinds;
ghost use Rattle.st_meaning.specs.Scripts.Sets;

/// Does nothing: its contract computes what scripts on a type with two parents print.
pub fn rows_of_diamonds()
    ensures diamond { printed_over diamond Diamonds.diamond ≡ lines (codes "2 1.1 = 7 null 3 \"SICP\"" ∷ codes "3 1.1 commit 1" ∷ []) }
    ensures inherited { printed_over diamond Diamonds.inherited ≡ lines (codes "3 1.1 = book#1" ∷ codes "4 1.1 * book#1 7" ∷ codes "4 1.1 . 1" ∷ codes "5 1.1 commit 1" ∷ []) }
{}

/// Does nothing: its contract computes what scripts on the longest texts print.
pub fn rows_of_texts()
    ensures longest { printed_over notes Texts.longest ≡ lines (codes "2 1.1 * note#1" ∷ codes "2 1.1 . 1" ∷ codes "3 1.1 commit 1" ∷ []) }
    ensures too_long { printed_over notes Texts.too_long ≡ lines (codes "1 1.1 refused 0 8 201 200" ∷ []) }
    ensures long_condition { printed_over notes Texts.long_condition ≡ lines (codes "2 1.1 . 0" ∷ codes "3 1.1 * note#1" ∷ codes "3 1.1 . 1" ∷ codes "4 1.1 commit 1" ∷ []) }
    ensures long_before_null { printed_over institute Texts.long_before_null ≡ lines (codes "1 1.1 refused 0 8 81 80" ∷ []) }
{}

/// Does nothing: its contract computes what scripts on attributes that no two entities share a value of print.
pub fn rows_of_uniques()
    ensures taken { printed_over pets Uniques.taken ≡ lines (codes "4 1.1 = 1" ∷ codes "5 1.1 refused 0 4 dog.tag dog#1" ∷ []) }
    ensures made_taken { printed_over pets Uniques.made_taken ≡ lines (codes "3 1.1 refused 0 4 dog.tag dog#1" ∷ []) }
    ensures nulls_are_not_held { printed_over pets Uniques.nulls_are_not_held ≡ lines (codes "4 1.1 = dog#1 dog#2" ∷ codes "5 1.1 commit 1" ∷ []) }
{}

/// Does nothing: its contract computes what scripts on references, their inverses, and what deleting does to them print.
pub fn rows_of_references()
    ensures references { printed_over club References.references ≡ lines (codes "8 1.1 = {person#2} {room#1 room#2}" ∷ codes "10 1.1 = null {}" ∷ codes "12 1.1 = person#4" ∷ codes "13 1.1 commit 1" ∷ []) }
    ensures manual { printed_over club References.manual ≡ lines (codes "5 1.1 = {person#2} {room#1} null" ∷ codes "6 1.1 commit 1" ∷ []) }
    ensures needed { printed_over club References.needed ≡ lines (codes "3 1.1 refused 0 6 room#1 room.keeper" ∷ codes "4 1.2 . 0" ∷ codes "5 1.2 commit 1" ∷ []) }
    ensures own_references { printed_over club References.own_references ≡ lines (codes "4 1.1 . 0" ∷ codes "5 1.1 commit 1" ∷ []) }
    ensures own_need { printed_over rings References.own_need ≡ lines (codes "5 1.1 * thing#1" ∷ codes "5 1.1 . 1" ∷ codes "6 1.1 commit 1" ∷ []) }
    ensures need_of_another { printed_over rings References.need_of_another ≡ lines (codes "4 1.1 refused 0 6 node#1 node.next" ∷ []) }
{}

/// Does nothing: its contract computes what scripts on selections and their order print.
pub fn rows_of_orders()
    ensures descending { printed_over staff Orders.descending ≡ lines (codes "5 1.1 * person#2 \"Cy\" null" ∷ codes "5 1.1 * person#1 \"Ann\" 30" ∷ codes "5 1.1 * student#1 \"Bob\" 30" ∷ codes "5 1.1 * person#3 \"Di\" 20" ∷ codes "5 1.1 . 4" ∷ codes "6 1.1 * person#1" ∷ codes "6 1.1 * student#1" ∷ codes "6 1.1 . 2" ∷ codes "7 1.1 commit 1" ∷ []) }
    ensures null_first { printed_over staff Orders.null_first ≡ lines (codes "4 1.1 * person#2" ∷ codes "4 1.1 * person#3" ∷ codes "4 1.1 * person#1" ∷ codes "4 1.1 . 3" ∷ codes "5 1.1 * person#2" ∷ codes "5 1.1 * person#1" ∷ codes "5 1.1 * person#3" ∷ codes "5 1.1 . 3" ∷ codes "6 1.1 commit 1" ∷ []) }
    ensures ties { printed_over staff Orders.ties ≡ lines (codes "4 1.1 * person#2" ∷ codes "4 1.1 * person#3" ∷ codes "4 1.1 * person#1" ∷ codes "4 1.1 . 3" ∷ codes "5 1.1 commit 1" ∷ []) }
    ensures differs_from_null { printed_over staff Orders.differs_from_null ≡ lines (codes "3 1.1 * person#1" ∷ codes "3 1.1 . 1" ∷ codes "4 1.1 . 0" ∷ codes "5 1.1 * person#2" ∷ codes "5 1.1 . 1" ∷ codes "6 1.1 commit 1" ∷ []) }
    ensures members { printed_over club Orders.members ≡ lines (codes "5 1.1 * person#1" ∷ codes "5 1.1 . 1" ∷ codes "6 1.1 . 0" ∷ codes "7 1.1 * room#1 {person#1}" ∷ codes "7 1.1 . 1" ∷ codes "8 1.1 commit 1" ∷ []) }
{}

/// Does nothing: its contract computes what scripts on transactions that are refused, and those behind them print.
pub fn rows_of_aborts()
    ensures spliced { printed_over tiny Aborts.spliced ≡ lines (codes "3 1.1 refused 0 10" ∷ codes "4 1.2 . 0" ∷ codes "5 1.2 commit 1" ∷ []) }
    ensures serials_come_back { printed_over tiny Aborts.serials_come_back ≡ lines (codes "2 1.1 refused 0 10" ∷ codes "4 1.2 = person#1" ∷ codes "5 1.2 commit 1" ∷ []) }
    ensures later_client_state { printed_over tiny Aborts.later_client_state ≡ lines (codes "2 1.1 commit 1" ∷ codes "3 1.2 = 3" ∷ codes "4 1.2 commit 2" ∷ codes "5 1.3 refused 2 1 zz" ∷ []) }
{}

/// Does nothing: its contract computes what scripts on variables print.
pub fn rows_of_variables()
    ensures hidden { printed_over tiny Variables.hidden ≡ lines (codes "3 1.1 * person#1 7" ∷ codes "3 1.1 . 1" ∷ codes "4 1.1 = 5" ∷ codes "5 1.1 commit 1" ∷ []) }
    ensures hidden_dead { printed_over tiny Variables.hidden_dead ≡ lines (codes "3 1.1 . 0" ∷ codes "4 1.1 refused 0 5 person#1" ∷ []) }
    ensures null_under_a_path { printed_over club Variables.null_under_a_path ≡ lines (codes "2 1.1 = null {}" ∷ codes "3 1.1 commit 1" ∷ []) }
    ensures not_live_in_a_condition { printed_over tiny Variables.not_live_in_a_condition ≡ lines (codes "1 1.1 refused 0 5 person#9" ∷ []) }
{}

/// Does nothing: its contract computes what scripts on finding print.
pub fn rows_of_finds()
    ensures found { printed_over institute Finds.found ≡ lines (codes "3 1.1 = unit#1" ∷ codes "5 1.1 = null" ∷ codes "6 1.1 commit 1" ∷ []) }
    ensures descendants { printed_over institute Finds.descendants ≡ lines (codes "4 1.1 = staff#1 null" ∷ codes "5 1.1 commit 1" ∷ []) }
    ensures null_and_too_long { printed_over institute Finds.null_and_too_long ≡ lines (codes "2 1.1 = null" ∷ codes "4 1.1 = null" ∷ codes "5 1.1 commit 1" ∷ []) }
{}

/// Does nothing: its contract computes what scripts on ensuring print.
pub fn rows_of_ensures()
    ensures both_ways { printed_over institute Ensures.both_ways ≡ lines (codes "2 1.1 = unit#1 \"x\"" ∷ codes "4 1.1 = unit#1 \"y\"" ∷ codes "6 1.1 = unit#2 null" ∷ codes "7 1.1 commit 1" ∷ []) }
    ensures null_key { printed_over pets Ensures.null_key ≡ lines (codes "1 1.1 refused 0 3 dog.tag" ∷ []) }
    ensures held_outside { printed_over institute Ensures.held_outside ≡ lines (codes "2 1.1 refused 0 4 person.badge person#1" ∷ []) }
    ensures others_kept { printed_over institute Ensures.others_kept ≡ lines (codes "3 1.1 = staff#1 2 \"Ann\"" ∷ codes "4 1.1 commit 1" ∷ []) }
{}

/// Does nothing: its contract computes what scripts on null print.
pub fn rows_of_nulls()
    ensures set { printed_over club Nulls.set ≡ lines (codes "3 1.1 refused 0 3 room.label" ∷ []) }
    ensures make { printed_over club Nulls.make ≡ lines (codes "2 1.1 refused 0 3 room.label" ∷ []) }
    ensures add { printed_over club Nulls.add ≡ lines (codes "3 1.1 refused 0 3 room.users" ∷ []) }
    ensures take { printed_over club Nulls.take ≡ lines (codes "3 1.1 refused 0 3 room.users" ∷ []) }
    ensures target { printed_over tiny Nulls.target ≡ lines (codes "1 1.1 refused 0 11" ∷ []) }
    ensures deleted { printed_over tiny Nulls.deleted ≡ lines (codes "1 1.1 refused 0 11" ∷ []) }
{}

/// Does nothing: its contract computes what scripts on names that are not there print.
pub fn rows_of_names()
    ensures ty { printed_over tiny Names.ty ≡ lines (codes "1 1.1 refused 0 1 dog" ∷ []) }
    ensures attribute { printed_over tiny Names.attribute ≡ lines (codes "1 1.1 refused 0 1 weight" ∷ []) }
    ensures variable { printed_over tiny Names.variable ≡ lines (codes "1 1.1 refused 0 1 zz" ∷ []) }
    ensures inherited { printed_over staff Names.inherited ≡ lines (codes "2 1.1 refused 0 1 student.name" ∷ []) }
    ensures literal { printed_over tiny Names.literal ≡ lines (codes "1 1.1 refused 0 1 dog" ∷ []) }
    ensures inverse_as_a_cell { printed_over club Names.inverse_as_a_cell ≡ lines (codes "1 1.1 refused 0 1 reports" ∷ []) }
    ensures own_cells { printed_over tiny Names.own_cells ≡ lines (codes "1 1.1 refused 0 1 p" ∷ []) }
{}

/// Does nothing: its contract computes what scripts on kinds that do not fit print.
pub fn rows_of_kinds()
    ensures outer_first { printed_over tiny Kinds.outer_first ≡ lines (codes "1 1.1 refused 0 2" ∷ []) }
    ensures second_side { printed_over tiny Kinds.second_side ≡ lines (codes "1 1.1 refused 0 2" ∷ []) }
    ensures no_entity { printed_over tiny Kinds.no_entity ≡ lines (codes "1 1.1 refused 0 2" ∷ []) }
    ensures ancestor { printed_over staff Kinds.ancestor ≡ lines (codes "2 1.1 refused 0 2" ∷ []) }
    ensures descendant { printed_over staff Kinds.descendant ≡ lines (codes "2 1.1 = null 2" ∷ codes "3 1.1 commit 1" ∷ []) }
    ensures set_in_a_let { printed_over club Kinds.set_in_a_let ≡ lines (codes "2 1.1 refused 0 2" ∷ []) }
    ensures member_of_a_value { printed_over tiny Kinds.member_of_a_value ≡ lines (codes "1 1.1 refused 0 2" ∷ []) }
    ensures key_not_unique { printed_over tiny Kinds.key_not_unique ≡ lines (codes "1 1.1 refused 0 2" ∷ []) }
    ensures inverse_in_set { printed_over club Kinds.inverse_in_set ≡ lines (codes "2 1.1 refused 0 2" ∷ []) }
{}

/// Does nothing: its contract computes what scripts on sets print.
pub fn rows_of_sets()
    ensures no_set { printed_over club Sets.no_set ≡ lines (codes "2 1.1 refused 0 7 person.boss" ∷ []) }
    ensures inverse { printed_over club Sets.inverse ≡ lines (codes "2 1.1 refused 0 7 person.reports" ∷ []) }
    ensures twice { printed_over club Sets.twice ≡ lines (codes "5 1.1 = {person#1}" ∷ codes "8 1.1 = {} {}" ∷ codes "9 1.1 commit 1" ∷ []) }
{}
