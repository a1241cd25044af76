// The processor setting: four constants, and a constructor that refuses other numbers.
ghost use Rattle.std.specs.Prelude.{◌≡◌};
ghost use Rattle.null_strategy.specs.Setting.{setting_told, setting_answer};

use crate::Processor;
use array_columns::Refusal;

impl Processor {
    pub const AVX2: Processor = Processor { cost: 10 };

    pub const SSE4_1: Processor = Processor { cost: 3 };

    pub const X86: Processor = Processor { cost: 2 };

    pub const OTHER: Processor = Processor { cost: 0 };

    // The setting of a gather cost.
    #[tactic(auto, unfolding(crate::specs::Setting::setting_answer, crate::specs::Setting::question12))]
    pub fn new(cost: usize) -> Result<Processor, Refusal>
        ensures { setting_told result ≡ setting_answer cost }
    {
        match cost {
            10 => Ok(Processor::AVX2),
            3 => Ok(Processor::SSE4_1),
            2 => Ok(Processor::X86),
            0 => Ok(Processor::OTHER),
            _ => Err(Refusal::UnknownSetting),
        }
    }

    // The gather cost.
    pub fn cost(self) -> usize
        ensures { result ≡ self.cost }
    {
        self.cost
    }
}
