// The theorems about the price, each on a contract, so that the check stands for every one. The statements are in specs/Demands.antt.

ghost use Rattle.price.specs.Demands.{WordsSuffice, LinesSuffice};

/// What a reading has in buffers as large as the price says.
pub fn price_holds()
    ensures words { WordsSuffice }
    ensures lines { LinesSuffice }
{}
