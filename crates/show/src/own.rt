// The program's own texts: what either side says beside the order, and the order that is sent where
// standard input is empty, which is long enough for three blocks.

/// What waits at the modem before the link opens.
pub const GREETING: &str = "The agent stands by for orders.";

/// What the modem's side sends when the order is there.
pub const REPLY: &str = "CONFIRMED. The goods come alongside as ordered.";

/// The terminal's last word.
pub const FAREWELL: &str = "Thank you. We sail as announced.";

/// The order.
pub const ORDER: &str = "PROVISION ORDER
Ship: MV Solvei, call sign LBQK4
For: the agent at Alesund, Flatholmen quay 2
Arrival: Monday 05:15, sailing Monday 22:00
Crew: 14, no relief

Dry stores
  wheat flour               40 kg
  dried peas                10 kg
  coffee, ground            12 kg
  salt                       5 kg

Fresh
  potatoes                  80 kg
  cabbage                   25 kg
  eggs                     180 pcs
  milk, long life           90 l

Frozen
  saithe fillet             30 kg
  minced beef               20 kg

Deck and engine
  rags                      20 kg
  grease cartridges         12 pcs

Deliver alongside before noon on Monday.
Signed: T. Aune, cook
";
