//! A law of the host in memory. It is a function that does nothing, whose contract is the law.

ghost use Rattle.grain_host.specs.Numbering.{AreNumbered, GivesOnce};
ghost use Rattle.grain_host.specs.Tables.{blank};
ghost use Rattle.grain_host.specs.declared.tables.TableHost.{TableHost};

/// The host in memory gives no token twice: a token that it asks with is the number of those that it
/// gave before. So is it in each state that a new host comes to: the tokens of the calls that wait
/// were given, and differ.
pub fn gives_each_token_once()
    ensures begins { AreNumbered blank.tokens }
    ensures goes_on { (s : TableHost) → AreNumbered s.tokens → GivesOnce s }
{}
