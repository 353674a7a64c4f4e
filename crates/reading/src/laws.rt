// What holds of every reading.
ghost use Rattle.std.specs.Prelude.{◌≡◌, true};
ghost use Rattle.reading.specs.Counts.{EveryShapeCounts};
ghost use Rattle.reading.specs.Law.{EveryShapeLiesInside};
ghost use Rattle.reading.specs.Wider.{WiderLimitsReadTheSame};

// Where any shape's reading accepts, the ranges read lie inside the input.
pub fn accepted_lies_inside() -> bool
    ensures law { EveryShapeLiesInside }
    ensures answer { result ≡ true }
{
    true
}

// Where any shape's reading accepts, it has counted its counts, each of them within its limit.
pub fn accepted_is_counted() -> bool
    ensures law { EveryShapeCounts }
    ensures answer { result ≡ true }
{
    true
}

// Wider limits read the same, unless a limit stops the reading.
pub fn wider_limits_read_the_same() -> bool
    ensures law { WiderLimitsReadTheSame }
    ensures answer { result ≡ true }
{
    true
}
