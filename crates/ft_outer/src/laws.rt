//! Laws of the definitions. These functions do nothing; their contracts say what holds.

ghost use Rattle.ft_outer.specs.Laws.{TakesNothingFirst, TakesPieceNext, TakesFrontLast, TakesAllLast, AppendsInTurn};

/// How a sink takes some bytes piece by piece.
pub fn taking_law()
    ensures first { TakesNothingFirst }
    ensures next { TakesPieceNext }
    ensures front { TakesFrontLast }
    ensures whole { TakesAllLast }
    ensures joined { AppendsInTurn }
{}
