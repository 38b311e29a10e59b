//! Laws over the definitions that the contracts cite.
ghost use Rattle.flow_view.specs.Advised.{IsAdvised, IsAdvisedAt};

/// The delay of a flight over open regulations is chosen among them as the desk's advice chooses:
/// the greatest, of equal ones that of the regulation opened first. So if its slots are frozen in
/// all regulations that hold it, its delay and its cause are those of the slot that the desk issues
/// to it.
pub fn delays_are_chosen_as_the_advice_is()
    ensures chosen { IsAdvised }
    ensures frozen { IsAdvisedAt }
{}
