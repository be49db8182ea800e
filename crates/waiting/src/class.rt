ghost use Rattle.std.specs.Prelude.{◌≡◌, ◌<◌, ◌≤◌, Some, IsErr, MatchResult};
ghost use Rattle.std.specs.Result.{result_ok};
ghost use Rattle.waiting.specs.Numbers.{class_number, class_of};

// The class of a job, with its number. It means nothing but what a waiting rule makes of it.
#[derive(Clone, Copy, PartialEq, Eq, Debug)]
pub enum Class {
    Zero = 0,
    One = 1,
    Two = 2,
    Three = 3,
}

// The error of a number that no class has.
#[derive(Clone, Copy, PartialEq, Eq, Debug)]
pub struct NoSuchClass;

impl TryFrom<u32> for Class {
    type Error = NoSuchClass;

    ghost try_from_gives = { λ number result. result_ok result ≡ class_of number };

    // The class with the number; none has a number above 3.
    fn try_from(number: u32) -> Result<Class, NoSuchClass>
        ensures class { result_ok result ≡ class_of number }
        ensures refused_above_three { 3 < number → IsErr result }
        ensures same_number { MatchResult result (λ class. class_number class ≡ number) (λ _. 3 < number) }
    {
        match number {
            0 => Ok(Class::Zero),
            1 => Ok(Class::One),
            2 => Ok(Class::Two),
            3 => Ok(Class::Three),
            _ => Err(NoSuchClass),
        }
    }
}

impl From<Class> for u32 {
    ghost from_gives = { λ class number. number ≡ class_number class };

    // The number of the class, from which `try_from` makes the class again.
    fn from(class: Class) -> u32
        ensures number { result ≡ class_number class }
        ensures at_most_three { result ≤ 3 }
        ensures same_class { class_of result ≡ Some class }
    {
        class as u32
    }
}
