// Which method runs where a virtual one is called.
ghost use Rattle.std.specs.Prelude.{◌≡◌};
ghost use Rattle.std.specs.List.{AllByRecursion};
ghost use Rattle.px_program.specs.Overriding.{AreByFirst, overrider_in};

use crate::Program;

impl Program {
    /// The method that takes another's place in a type, where one does: Partition III, 4.2. It takes time by the logarithm of how many it has.
    pub fn overrider_of(&self, type_number: u32, method: u32) -> Option<u32>
        requires by_first { AllByRecursion (λ info. AreByFirst info.overrides) self.now.types }
        ensures { result ≡ overrider_in self.now.types type_number method }
    {
        let overrides = self.types.get(type_number as usize)?.overrides.as_slice();
        match overrides.binary_search_by_key(&method, |pair| pair.0) {
            Ok(index) => Some(overrides[index].1),
            Err(_) => None,
        }
    }
}
