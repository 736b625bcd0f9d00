ghost use Rattle.study_gen.specs.Generator.{IsDrawn, AreEnds, IsPicked};

const FACTOR: u64 = 6_364_136_223_846_793_005;

const STEP: u64 = 1_442_695_040_888_963_407;

/// A generator of numbers.
#[derive(Clone, Copy, Debug)]
pub struct Generator {
    pub state: u64,
}

impl Generator {
    /// Draws the next number.
    fn draw(&mut self) -> u64
        ensures { IsDrawn result self.old.state self.new.state }
    {
        self.state = self.state.wrapping_mul(FACTOR).wrapping_add(STEP);
        self.state >> 33
    }

    /// Picks a number from `least` to `most`.
    pub fn pick(&mut self, least: u64, most: u64) -> u64
        requires { AreEnds least most }
        ensures { IsPicked result least most self.old.state self.new.state }
    {
        least + self.draw() % (most - least + 1)
    }
}
